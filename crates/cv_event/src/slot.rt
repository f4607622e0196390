//! What is known of a job's slots, and the tasks that are to be done.

/// How far a slot of a job is.
#[derive(Clone, Copy, Debug, PartialEq, Eq)]
pub enum Standing {
    /// The cache wasn't asked yet.
    Open,
    /// The cache couldn't serve it, so the caller of this number paints it.
    Missed(u32),
    /// Its image is there.
    Ready,
    /// Its image was delivered behind the job's end, and dropped.
    Lost,
}

/// A slot of a job.
#[derive(Clone, Copy, Debug, PartialEq, Eq)]
pub struct Slot {
    /// The id of the layer that it shows.
    pub layer: u32,
    /// How far it is.
    pub standing: Standing,
    /// Whether, while its job had no end, an accepted edit touched a layer on which its image depends.
    pub touched: bool,
}

/// What is to be done next for a job.
#[derive(Clone, Copy, Debug, PartialEq, Eq)]
pub enum Task {
    /// To ask the cache for a job's slot.
    Look(u32, u32),
    /// To compose a job's picture.
    Compose(u32),
}
