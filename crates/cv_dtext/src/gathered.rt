//! What has been read of the records behind the header.

ghost use Rattle.std.specs.Prelude.{◌≡◌, ◌++◌, ◌∷◌, ◌<◌, ℕ, [], length, OnOk};
ghost use Rattle.std.specs.Option.{option_to_list};
ghost use Rattle.csv.specs.Records.{fields_of};
ghost use Rattle.cv_dtext.specs.Gathered.{gathered_of, with_record, IsAdded};

use crate::cell::read_cell;
use crate::counts::Counts;
use crate::fields::{bytes_at, other_texts};
use crate::options::TextError;
use csv::StringRecord;
use cv_model::{Feature, NoMemory, Note, Room, Sequence};
use std::alloc::Global;

/// The features so far, the notes on them, and how much they hold.
#[derive(Drop)]
pub struct Gathered {
    pub features: Sequence<Feature>,
    pub notes: Sequence<Note>,
    pub counts: Counts,
}

impl Gathered {
    /// Nothing has been read.
    pub fn new(alloc: Global) -> Gathered
        ensures { (place : ℕ) → result ≡ gathered_of place [] }
    {
        Gathered {
            features: Sequence::new(alloc),
            notes: Sequence::new(alloc),
            counts: Counts {
                vertices: 0,
                values: 0,
            },
        }
    }

    /// Keeps a feature, and the note on it, if there is one.
    fn keep(&mut self, feature: Feature, note: Option<Note>) -> Result<(), NoMemory>
        ensures features { OnOk result (self.new.features ≡ self.old.features ++ feature ∷ []) }
        ensures notes { OnOk result (self.new.notes ≡ self.old.notes ++ option_to_list note) }
        ensures counts { self.new.counts ≡ self.old.counts }
    {
        self.features.put(feature)?;
        if let Some(note) = note {
            self.notes.put(note)?;
        }
        Ok(())
    }

    /// Adds the feature of a record, where there is room for it.
    pub fn add(
        &mut self,
        alloc: Global,
        texts: &StringRecord,
        place: usize,
        number: u32,
        room: &Room,
    ) -> Result<(), TextError>
        requires { place < length (fields_of texts.now) }
        ensures { IsAdded room.now number
            (with_record place number (fields_of texts.now) self.old) self.new result }
    {
        let Ok(cell) = read_cell(alloc, bytes_at(texts, place)) else {
            return Err(TextError::NoMemory);
        };
        let others = texts.len() as u64 - 1;
        let counts = self.counts.with(number, cell.vertices(), others, room)?;
        let Ok(values) = other_texts(alloc, texts, place) else {
            return Err(TextError::NoMemory);
        };
        let note = cell.note(number);
        let feature = Feature {
            id: number,
            geometry: cell.into_geometry(),
            values,
        };
        match self.keep(feature, note) {
            Ok(()) => {}
            Err(_) => return Err(TextError::NoMemory),
        }
        self.counts = counts;
        Ok(())
    }
}
