//! What no clause says: each call that takes memory does its work where there is enough.
use crate::{CanvasTable, JobTable};
use cv_event::Task;
use cv_model::{CanvasSpec, NoMemory, Rgb, View};
use cv_store::Store;
use std::alloc::{AllocError, Global};
use std::test::Fail;

const VIEW: View = View {
    lx2: 0,
    ty2: 2_000_000,
    u: 1_000_000,
    w: 2,
    h: 1,
};

const WHITE: Rgb = Rgb {
    r: 255,
    g: 255,
    b: 255,
};

const SPECS: [CanvasSpec; 2] = [
    CanvasSpec {
        w: 2,
        h: 1,
        capacity: 3,
    },
    CanvasSpec {
        w: 2,
        h: 1,
        capacity: 0,
    },
];

/// Starts a job on a canvas, where there may be one more.
fn start(jobs: &mut JobTable, alloc: Global, canvas: u32, store: &Store) -> Result<u32, NoMemory> {
    if jobs.len() < u32::MAX {
        jobs.start(alloc, canvas, store, VIEW)
    } else {
        Err(AllocError)
    }
}

/// How many slots the picture of a job without end is composed of.
fn slots(jobs: &JobTable, alloc: Global, job: u32) -> Result<Option<u64>, NoMemory> {
    let Some(row) = jobs.get(job) else {
        return Ok(None);
    };
    match row.ended() {
        None => Ok(Some(row.composing(alloc)?.layers().len())),
        Some(_) => Ok(None),
    }
}

/// Two jobs on one canvas.
fn two(alloc: Global) -> Result<JobTable, NoMemory> {
    let store = Store::new(alloc, WHITE);
    let mut jobs = JobTable::new(alloc);
    start(&mut jobs, alloc, 0, &store)?;
    start(&mut jobs, alloc, 0, &store)?;
    Ok(jobs)
}

#[test]
fn a_start_cancels_the_other_job_of_its_canvas(rt: HostRuntime) -> Result<(), Fail> {
    let jobs = two(rt.alloc())?;
    assert_eq!(rt; jobs.due(), 1);
    assert!(rt; jobs.task() == Some(Task::Compose(2)));
    Ok(())
}

#[test]
fn a_job_without_end_can_be_composed(rt: HostRuntime) -> Result<(), Fail> {
    let alloc = rt.alloc();
    let store = Store::new(alloc, WHITE);
    let mut jobs = JobTable::new(alloc);
    let job = start(&mut jobs, alloc, 0, &store)?;
    assert!(rt; slots(&jobs, alloc, job)? == Some(0));
    Ok(())
}

#[test]
fn canvases_get_their_views(rt: HostRuntime) -> Result<(), Fail> {
    let alloc = rt.alloc();
    let mut canvases = CanvasTable::open(alloc, &SPECS)?;
    canvases.set_view(1, VIEW);
    let Some(first) = canvases.get(0) else {
        return Err(Fail::from(AllocError));
    };
    assert!(rt; first.view().is_none());
    assert!(rt; canvases.get(2).is_none());
    Ok(())
}
