//! What no clause says: each call that takes memory does its work where there is enough.
use crate::{Claim, Desk, EndError, StartError};
use cv_chunks::Shared;
use cv_event::How;
use cv_model::{CanvasSpec, Edit, EditError, Rgb, View};
use cv_store::Store;
use std::alloc::{AllocError, Global};
use std::test::Fail;

const VIEW: View = View {
    lx2: 0,
    ty2: 2_000_000,
    u: 1_000_000,
    w: 2,
    h: 1,
};

const WHITE: Rgb = Rgb {
    r: 255,
    g: 255,
    b: 255,
};

const SPECS: [CanvasSpec; 1] = [CanvasSpec {
    w: 2,
    h: 1,
    capacity: 0,
}];

/// A desk of no layers, with one canvas.
fn opened(alloc: Global) -> Result<Desk, Fail> {
    match Desk::open(alloc, Store::new(alloc, WHITE), &SPECS) {
        Ok(desk) => Ok(desk),
        Err(refused) => Err(Fail::from(refused.1)),
    }
}

/// One of which the canvas has a view.
fn shown(alloc: Global) -> Result<Desk, Fail> {
    let mut desk = opened(alloc)?;
    match desk.set_view(0, 0, VIEW) {
        Ok(()) => Ok(desk),
        Err(_) => Err(Fail::from(AllocError)),
    }
}

/// The job of which the composition is handed out, if it is one.
fn composed(desk: &mut Desk) -> Option<u32> {
    match desk.claim(0) {
        Ok(Claim::Compose(job, _)) => Some(job),
        Ok(Claim::Hit(_, _)) => None,
        Ok(Claim::Paint(_)) => None,
        Ok(Claim::Nothing) => None,
        Err(_) => None,
    }
}

/// An edit, to be made.
fn shared(alloc: Global, edit: Edit) -> Result<Shared<Edit>, Fail> {
    match Shared::of(alloc, edit) {
        Ok(edit) => Ok(edit),
        Err(refused) => Err(Fail::from(refused.1)),
    }
}

#[test]
fn a_job_needs_a_view(rt: HostRuntime) -> Result<(), Fail> {
    let mut desk = opened(rt.alloc())?;
    assert!(rt; desk.start(0, 0) == Err(StartError::NoView));
    assert!(rt; desk.start(0, 1) == Err(StartError::UnknownCanvas));
    Ok(())
}

#[test]
fn a_job_is_cancelled_once(rt: HostRuntime) -> Result<(), Fail> {
    let mut desk = shown(rt.alloc())?;
    assert!(rt; desk.start(0, 0) == Ok(1));
    assert!(rt; desk.cancel(0, 1) == Ok(()));
    assert!(rt; desk.cancel(0, 1) == Err(EndError::Ended(How::Cancelled)));
    assert!(rt; desk.cancel(0, 2) == Err(EndError::UnknownJob));
    assert_eq!(rt; desk.journal().len(), 3);
    Ok(())
}

#[test]
fn a_job_without_slots_is_composed_once(rt: HostRuntime) -> Result<(), Fail> {
    let mut desk = shown(rt.alloc())?;
    assert!(rt; desk.start(0, 0) == Ok(1));
    assert!(rt; composed(&mut desk) == Some(1));
    assert!(rt; composed(&mut desk) == None);
    Ok(())
}

#[test]
fn a_job_is_previewed(rt: HostRuntime) -> Result<(), Fail> {
    let mut desk = shown(rt.alloc())?;
    assert!(rt; desk.start(0, 0) == Ok(1));
    assert!(rt; desk.preview(0, 1).is_ok());
    Ok(())
}

#[test]
fn edits_are_entries_with_their_verdicts(rt: HostRuntime) -> Result<(), Fail> {
    let alloc = rt.alloc();
    let mut desk = opened(alloc)?;
    let made = shared(alloc, Edit::SetBackground { colour: WHITE })?;
    assert!(rt; desk.edit(0, made) == Ok(()));
    let refused = shared(alloc, Edit::RemoveLayer { layer: 1 })?;
    assert!(rt; desk.edit(0, refused) == Err(EditError::UnknownLayer));
    assert_eq!(rt; desk.journal().len(), 2);
    Ok(())
}
