//! The opening of a desk.

ghost use Rattle.std.specs.Prelude.{◌≡◌, [], IfOk, IfErr};
ghost use Rattle.cv_store.specs.Stores.{project_of};
ghost use Rattle.cv_event.specs.States.{begin};
ghost use Rattle.cv_desk.specs.Desks.{state};

use crate::desk::Desk;
use cv_event::Journal;
use cv_layer::NoMemory;
use cv_model::CanvasSpec;
use cv_store::Store;
use cv_tables::{CanvasTable, JobTable};
use std::alloc::Global;
use std::snapshot::Snapshot;

impl Desk {
    /// A desk of a store at its first version, with canvases of these sizes and capacities. Its journal is
    /// empty. A refusal hands the store back.
    pub fn open(
        alloc: Global,
        store: Store,
        canvases: &[CanvasSpec],
    ) -> Result<Desk, (Store, NoMemory)>
        requires { store.version ≡ 1 }
        ensures ok { IfOk result (λ made. (made.journal ≡ [])
            × (made.opening ≡ record { project = project_of store; canvases = canvases.now })
            × (state made ≡ begin made.opening)) }
        ensures back { IfErr result (λ e. e.0 ≡ store) }
    {
        // It says that the revisions of a store at its first version are 1.
        let _ = store.len();
        let canvases = match CanvasTable::open(alloc, canvases) {
            Ok(canvases) => canvases,
            Err(error) => return Err((store, error)),
        };
        Ok(Desk {
            alloc,
            opened: Snapshot::of(&store),
            blank: Snapshot::of(&canvases),
            store,
            canvases,
            jobs: JobTable::new(alloc),
            journal: Journal::new(alloc),
        })
    }
}
