//! How much has been read, against the room that there is.

ghost use Rattle.std.specs.Prelude.{◌≡◌, ◌+◌, ◌<◌, ◌≤◌, true, false, IfOk, IfErr};
ghost use Rattle.cv_dtext.specs.Refusals.{is_past};

use crate::options::TextError;
use cv_model::Room;

/// How many vertices and how many attribute values the features so far have.
#[derive(Clone, Copy, Debug)]
pub struct Counts {
    pub vertices: u64,
    pub values: u64,
}

/// A count that has grown, where it stays within what there is room for.
fn grown(count: u64, by: u64, most: u32) -> Result<u64, TextError>
    ensures ok { IfOk result (λ n. (n ≡ count + by) × (n ≤ most) × (n ≤ 4294967295)) }
    ensures err { IfErr result (λ e. (e ≡ TextError.TooMany) × (most < count + by)) }
{
    match count.checked_add(by) {
        Some(grown) if grown <= u64::from(most) => Ok(grown),
        _ => Err(TextError::TooMany),
    }
}

impl Counts {
    /// Those with one more feature, the one of this number, where there is room for it.
    pub fn with(
        self,
        number: u32,
        vertices: u64,
        values: u64,
        room: &Room,
    ) -> Result<Counts, TextError>
        ensures ok { IfOk result (λ new.
            (new.vertices ≡ self.vertices + vertices) × (new.values ≡ self.values + values)
            × (new.vertices ≤ 4294967295) × (is_past room.now number new.vertices new.values ≡ false)) }
        ensures err { IfErr result (λ e. (e ≡ TextError.TooMany)
            × (is_past room.now number (self.vertices + vertices) (self.values + values) ≡ true)) }
    {
        if number > room.features {
            return Err(TextError::TooMany);
        }
        let vertices = grown(self.vertices, vertices, room.vertices)?;
        let values = grown(self.values, values, room.values)?;
        Ok(Counts { vertices, values })
    }
}
