//! Edits of the project.

ghost use Rattle.std.specs.Prelude.{◌≡◌, ◌≤◌, ◌+◌, Err};
ghost use Rattle.cv_model.specs.Edits.{verdict};
ghost use Rattle.cv_store.specs.Answers.{told_by};
ghost use Rattle.cv_tables.specs.Rows.{owed};
ghost use Rattle.cv_desk.specs.Desks.{state};
ghost use Rattle.cv_desk.specs.Answers.{EditAnswer, EditNotes};

use crate::desk::Desk;
use cv_chunks::Shared;
use cv_event::{Act, Entry};
use cv_model::{Edit, EditError};

/// The verdict that an error of a store tells: there is none where memory was wanted.
fn told(error: EditError) -> Option<EditError>
    ensures { result ≡ told_by error }
{
    match error {
        EditError::UnknownLayer => Some(EditError::UnknownLayer),
        EditError::UnknownFeature => Some(EditError::UnknownFeature),
        EditError::WrongKind => Some(EditError::WrongKind),
        EditError::DuplicateId => Some(EditError::DuplicateId),
        EditError::Limit => Some(EditError::Limit),
        EditError::BadPlace => Some(EditError::BadPlace),
        EditError::NoMemory => None,
    }
}

impl Desk {
    /// Puts an edit that was refused with its verdict behind the journal, but for want of memory.
    fn note_refused(&mut self, who: u32, edit: Shared<Edit>, error: EditError)
        requires room { owed self.old.tables.rows + 1 ≤ self.old.spare }
        requires told { verdict (state self.old).project (state self.old).accepted edit ≡ told_by error }
        ensures { EditNotes self.old self.new who edit (Err error) }
    {
        let Some(verdict) = told(error) else {
            return;
        };
        self.journal.push(Entry {
            caller: who,
            act: Act::Edit(edit, Some(verdict)),
        });
    }

    /// Makes an edit, and puts it with its verdict behind the journal.
    fn note_edit(&mut self, who: u32, edit: Shared<Edit>) -> Result<(), EditError>
        requires { owed self.old.tables.rows + 1 ≤ self.old.spare }
        ensures answer { EditAnswer (state self.old) edit result }
        ensures entry { EditNotes self.old self.new who edit result }
    {
        match self.store.apply(edit.value()) {
            Ok(_) => {
                self.canvases.touch(edit.value());
                self.jobs.touch(edit.value());
                self.journal.push(Entry {
                    caller: who,
                    act: Act::Edit(edit, None),
                });
                Ok(())
            }
            Err(error) => {
                self.note_refused(who, edit, error);
                Err(error)
            }
        }
    }

    /// Edits the project. A refused edit is an entry too, but for want of memory.
    pub fn edit(&mut self, who: u32, edit: Shared<Edit>) -> Result<(), EditError>
        ensures answer { EditAnswer (state self.old) edit result }
        ensures entry { EditNotes self.old self.new who edit result }
    {
        match self.reserve(1) {
            Ok(()) => self.note_edit(who, edit),
            Err(_) => Err(EditError::NoMemory),
        }
    }
}
