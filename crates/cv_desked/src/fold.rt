//! What the entries of a journal say of a desk of the two squares with two canvases, read entry by entry as
//! plainly as can be: the answer that each entry must have.
use cv_chunks::Shared;
use cv_event::{Act, Entry, Fate, How, Journal, Slot, Standing, Task};
use cv_layer::LayerInput;
use cv_model::{Edit, EditError, NoMemory, Rgb, View};
use cv_store::Store;
use std::alloc::Global;

/// Which of the three views this is: the first one, the one beside it, or the one of half the side.
fn number_of(view: &View) -> u8 {
    if view.u == 500_000 {
        2
    } else {
        u8::from(view.lx2 != 0)
    }
}

/// What a picture is composed on: the colour below, and the opacities of the two layers, the lower one first.
#[derive(Clone, Copy)]
pub struct Ground {
    pub background: Rgb,
    pub opacities: [u8; 2],
}

/// A canvas: its view, the images that it keeps, the one used last first, and the job published last, or 0.
#[derive(Drop)]
struct FoldCanvas {
    view: Option<u8>,
    cache: Vec<(u32, u8)>,
    published: u32,
}

impl FoldCanvas {
    fn new(alloc: Global) -> FoldCanvas {
        FoldCanvas {
            view: None,
            cache: Vec::new(alloc),
            published: 0,
        }
    }

    fn show(&mut self, view: &View) {
        let new = number_of(view);
        let keeps = match self.view {
            Some(old) => (old == 2) == (new == 2),
            None => false,
        };
        if !keeps {
            self.cache.truncate(0);
        }
        self.view = Some(new);
    }

    /// Puts an image at the front of the cache.
    fn put(&mut self, image: (u32, u8), capacity: usize) -> Result<(), NoMemory> {
        self.cache.retain(|other| other.0 != image.0);
        self.cache.insert(0, image)?;
        self.cache.truncate(capacity);
        Ok(())
    }

    /// Takes what depends on a layer out of the cache.
    fn touch(&mut self, low: bool, high: bool) {
        self.cache
            .retain(|image| !(image.0 == 1 && low || image.0 == 2 && high));
    }
}

/// A job: what it took, its two slots, whether its picture was handed out, and its end.
#[derive(Drop)]
pub struct FoldJob {
    canvas: u32,
    view: u8,
    ground: Ground,
    masked: bool,
    low: Slot,
    high: Slot,
    composed: bool,
    ended: Option<How>,
    base: Option<Shared<LayerInput>>,
    top: Option<Shared<LayerInput>>,
}

impl FoldJob {
    /// The number of its view.
    pub fn view(&self) -> u8 {
        self.view
    }

    /// What its picture is composed on.
    pub fn ground(&self) -> Ground {
        self.ground
    }

    /// What slot 0, or else slot 1, is painted from.
    pub fn input(&self, at: u32) -> &Option<Shared<LayerInput>> {
        if at == 0 { &self.base } else { &self.top }
    }

    /// How it ended.
    pub fn ended(&self) -> Option<How> {
        self.ended
    }

    /// Slot 0, or else slot 1.
    pub fn slot(&self, at: u32) -> Slot {
        if at == 0 { self.low } else { self.high }
    }

    /// Whether a slot is ready.
    pub fn is_ready(&self, at: u32) -> bool {
        self.slot(at).standing == Standing::Ready
    }

    fn stand(&mut self, at: u32, standing: Standing) {
        if at == 0 {
            self.low.standing = standing;
        } else {
            self.high.standing = standing;
        }
    }

    fn end(&mut self, how: How) {
        if self.ended.is_none() {
            self.ended = Some(how);
        }
    }

    /// Cancels it, where it is on this canvas.
    fn cancel_on(&mut self, canvas: u32) {
        if self.canvas == canvas {
            self.end(How::Cancelled);
        }
    }

    /// Touches the slots that depend on a layer.
    fn touch(&mut self, layer: u32) {
        if self.ended.is_some() {
            return;
        }
        if layer == 1 || layer == 3 && self.masked {
            self.low.touched = true;
        }
        if layer == 2 {
            self.high.touched = true;
        }
    }

    /// Gets the image of a slot. Answers whether the caller owed it, and what becomes of it.
    fn deliver(&mut self, who: u32, at: u32, stores: bool) -> (bool, Fate) {
        let waits = self.slot(at).standing == Standing::Missed(who);
        if self.ended.is_some() {
            self.stand(at, Standing::Lost);
            return (waits, Fate::Dropped);
        }
        self.stand(at, Standing::Ready);
        (waits, if stores { Fate::Stored } else { Fate::Kept })
    }

    /// Its open task, where it has this number.
    fn task(&self, number: u32) -> Option<Task> {
        if self.ended.is_some() {
            return None;
        }
        if self.low.standing == Standing::Open {
            return Some(Task::Look(number, 0));
        }
        if self.high.standing == Standing::Open {
            return Some(Task::Look(number, 1));
        }
        if self.is_ready(0) && self.is_ready(1) && !self.composed {
            return Some(Task::Compose(number));
        }
        None
    }
}

/// What is known behind a journal.
#[derive(Drop)]
pub struct Fold {
    store: Store,
    capacity: usize,
    masked: bool,
    refused: Option<EditError>,
    first: FoldCanvas,
    second: FoldCanvas,
    jobs: Vec<FoldJob>,
    started: u32,
    seen: u64,
    hits: u32,
    fates: [u32; 3],
}

impl Fold {
    /// What is known of a desk as it is opened, of this project.
    pub fn new(alloc: Global, store: Store, capacity: u32) -> Fold {
        Fold {
            store,
            capacity: capacity as usize,
            masked: true,
            refused: None,
            first: FoldCanvas::new(alloc),
            second: FoldCanvas::new(alloc),
            jobs: Vec::new(alloc),
            started: 0,
            seen: 0,
            hits: 0,
            fates: [0, 0, 0],
        }
    }

    /// Canvas 0, or else canvas 1.
    fn canvas(&self, at: u32) -> &FoldCanvas {
        if at == 0 { &self.first } else { &self.second }
    }

    fn canvas_mut(&mut self, at: u32) -> &mut FoldCanvas {
        if at == 0 {
            &mut self.first
        } else {
            &mut self.second
        }
    }

    /// Why the last edit was refused, if it was.
    pub fn refused(&self) -> Option<EditError> {
        self.refused
    }

    /// Whether this is the view of a canvas.
    pub fn shows(&self, canvas: u32, view: Option<View>) -> bool {
        match view {
            Some(view) => self.canvas(canvas).view == Some(number_of(&view)),
            None => self.canvas(canvas).view.is_none(),
        }
    }

    /// Whether a canvas has a view.
    pub fn is_shown(&self, canvas: u32) -> bool {
        self.canvas(canvas).view.is_some()
    }

    /// The job that a canvas has published last, or 0.
    pub fn published(&self, canvas: u32) -> u32 {
        self.canvas(canvas).published
    }

    /// How many jobs there are.
    pub fn jobs(&self) -> u32 {
        self.started
    }

    /// How many looks hit, and how many deliveries were stored, kept and dropped.
    pub fn counts(&self) -> (u32, [u32; 3]) {
        (self.hits, self.fates)
    }

    /// The job of a number.
    pub fn job(&self, number: u32) -> Option<&FoldJob> {
        if number == 0 {
            return None;
        }
        self.jobs.get((number - 1) as usize)
    }

    fn job_mut(&mut self, number: u32) -> Option<&mut FoldJob> {
        if number == 0 {
            return None;
        }
        self.jobs.get_mut((number - 1) as usize)
    }

    /// The task of the first job that has one.
    fn task(&self) -> Option<Task> {
        let mut number: u32 = 0;
        for job in self.jobs.iter() {
            number = number.wrapping_add(1);
            if let Some(task) = job.task(number) {
                return Some(task);
            }
        }
        None
    }

    /// Whether a task is due.
    pub fn is_due(&self) -> bool {
        self.task().is_some()
    }

    /// Takes what depends on a layer out of the caches, and touches the jobs.
    fn touch(&mut self, layer: u32) {
        let low = layer == 1 || layer == 3 && self.masked;
        self.first.touch(low, layer == 2);
        self.second.touch(low, layer == 2);
        for job in self.jobs.iter_mut() {
            job.touch(layer);
        }
    }

    fn edit(&mut self, edit: &Edit, verdict: Option<EditError>) -> bool {
        self.refused = self.store.apply(edit).err();
        if self.refused.is_some() {
            return self.refused == verdict;
        }
        match edit {
            Edit::SetStyle { layer, style: _ } => self.touch(*layer),
            Edit::SetMask { layer, mask } => {
                self.touch(*layer);
                if *layer == 1 {
                    self.masked = mask.is_some();
                }
            }
            _ => {}
        }
        verdict.is_none()
    }

    /// What a picture of the present project is composed on.
    fn ground(&self) -> Ground {
        Ground {
            background: self.store.background(),
            opacities: [self.opacity(1), self.opacity(0)],
        }
    }

    /// The opacity of the layer at a place, from the top.
    fn opacity(&self, place: u32) -> u8 {
        match self.store.place(place) {
            Some(frame) => frame.opacity,
            None => 0,
        }
    }

    fn start(&mut self, canvas: u32, job: u32) -> Result<bool, NoMemory> {
        for other in self.jobs.iter_mut() {
            other.cancel_on(canvas);
        }
        let Some(view) = self.canvas(canvas).view else {
            return Ok(false);
        };
        let slot = Slot {
            layer: 1,
            standing: Standing::Open,
            touched: false,
        };
        let made = FoldJob {
            canvas,
            view,
            ground: self.ground(),
            masked: self.masked,
            low: slot,
            high: Slot { layer: 2, ..slot },
            composed: false,
            ended: None,
            base: self.store.input(1)?,
            top: self.store.input(2)?,
        };
        self.jobs.push(made)?;
        self.started = self.started.wrapping_add(1);
        Ok(job == self.started)
    }

    /// The canvas of a job, whether its slot is fresh, and that slot's image.
    fn image_of(&self, job: u32, at: u32) -> Option<(u32, bool, (u32, u8))> {
        let job = self.job(job)?;
        let slot = job.slot(at);
        let fresh = self.canvas(job.canvas).view == Some(job.view) && !slot.touched;
        Some((job.canvas, fresh, (slot.layer, job.view)))
    }

    /// Puts an image at the front of a canvas's cache.
    fn put(&mut self, canvas: u32, image: (u32, u8)) -> Result<(), NoMemory> {
        let capacity = self.capacity;
        self.canvas_mut(canvas).put(image, capacity)
    }

    fn look(&mut self, who: u32, job: u32, at: u32, hit: bool) -> Result<bool, NoMemory> {
        let due = self.task() == Some(Task::Look(job, at));
        let Some((canvas, fresh, image)) = self.image_of(job, at) else {
            return Ok(false);
        };
        let right = due && hit == (fresh && self.canvas(canvas).cache.contains(&image));
        if hit {
            self.put(canvas, image)?;
            self.hits = self.hits.wrapping_add(1);
        }
        if let Some(job) = self.job_mut(job) {
            job.stand(
                at,
                if hit {
                    Standing::Ready
                } else {
                    Standing::Missed(who)
                },
            );
        }
        Ok(right)
    }

    fn deliver(&mut self, who: u32, job: u32, at: u32, fate: Fate) -> Result<bool, NoMemory> {
        let Some((canvas, fresh, image)) = self.image_of(job, at) else {
            return Ok(false);
        };
        let stores = fresh && self.capacity > 0;
        let Some(job) = self.job_mut(job) else {
            return Ok(false);
        };
        let (waits, want) = job.deliver(who, at, stores);
        if want == Fate::Stored {
            self.put(canvas, image)?;
        }
        self.count(want);
        Ok(waits && fate == want)
    }

    fn count(&mut self, fate: Fate) {
        match fate {
            Fate::Stored => self.fates[0] = self.fates[0].wrapping_add(1),
            Fate::Kept => self.fates[1] = self.fates[1].wrapping_add(1),
            Fate::Dropped => self.fates[2] = self.fates[2].wrapping_add(1),
        }
    }

    fn compose(&mut self, job: u32) -> bool {
        let due = self.task() == Some(Task::Compose(job));
        if let Some(job) = self.job_mut(job) {
            job.composed = true;
        }
        due
    }

    fn finish(&mut self, job: u32) -> bool {
        if let Some((canvas, _, _)) = self.image_of(job, 0) {
            self.canvas_mut(canvas).published = job;
        }
        self.end(job, How::Finished)
    }

    fn end(&mut self, job: u32, how: How) -> bool {
        match self.job_mut(job) {
            Some(job) => {
                let live = job.ended.is_none();
                job.end(how);
                live
            }
            None => false,
        }
    }

    fn ready_bits(&self, job: u32) -> Option<u32> {
        let job = self.job(job)?;
        Some(u32::from(job.is_ready(0)) | u32::from(job.is_ready(1)) << 1)
    }

    /// Goes one entry on. Answers whether the entry has the answer that it must have.
    fn step(&mut self, entry: &Entry) -> Result<bool, NoMemory> {
        let who = entry.caller;
        Ok(match &entry.act {
            Act::Edit(edit, verdict) => self.edit(edit.value(), *verdict),
            Act::View(canvas, view) => {
                self.canvas_mut(*canvas).show(view);
                true
            }
            Act::Start(canvas, job) => self.start(*canvas, *job)?,
            Act::Look(job, at, hit) => self.look(who, *job, *at, *hit)?,
            Act::Deliver(job, at, fate) => self.deliver(who, *job, *at, *fate)?,
            Act::Compose(job) => self.compose(*job),
            Act::Finish(job) => self.finish(*job),
            Act::Fail(job) => self.end(*job, How::NoMemory),
            Act::Cancel(job) => self.end(*job, How::Cancelled),
            Act::Preview(job, bits) => self.ready_bits(*job) == Some(*bits),
            Act::Save(canvas, job) => *job == self.published(*canvas),
        })
    }

    /// Goes on to the end of a journal. Answers whether each further entry has the answer that it must have.
    pub fn follow(&mut self, journal: &Journal) -> Result<bool, NoMemory> {
        let mut right = true;
        for at in self.seen..journal.len() {
            let Some(entry) = journal.get(at) else {
                return Ok(false);
            };
            right = self.step(entry)? && right;
        }
        self.seen = journal.len();
        Ok(right)
    }
}
