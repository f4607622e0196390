//! What no clause says: a script is played where there is memory enough. Worked scripts stand in the proofs.
use crate::{Report, SessionError, run_alone};
use cv_model::{CanvasSpec, Rgb, View};
use cv_outside::MemTray;
use cv_store::Store;
use std::alloc::{AllocError, Global};
use std::collections::BTreeMap;
use std::test::Fail;

const VIEW: View = View {
    lx2: 0,
    ty2: 2_000_000,
    u: 1_000_000,
    w: 2,
    h: 1,
};

const INK: Rgb = Rgb {
    r: 16,
    g: 32,
    b: 48,
};

const SPECS: [CanvasSpec; 1] = [CanvasSpec {
    w: 2,
    h: 1,
    capacity: 1,
}];

const VIEWS: [Option<View>; 1] = [Some(VIEW)];

/// What a script does on one canvas of a project without layers.
fn played(
    alloc: Global,
    text: &[u8],
    tray: &mut MemTray,
) -> Result<Result<Report, SessionError>, Fail> {
    match cv_script::read(alloc, text) {
        Ok(script) => Ok(run_alone(alloc, Store::new(alloc, INK), &SPECS, &VIEWS, &script, tray)),
        Err(_) => Err(Fail::from(AllocError)),
    }
}

/// How many entries, refused commands and pictures it makes, where the tray keeps all.
fn counts(alloc: Global, text: &[u8]) -> Result<Option<(u64, u64, u32)>, Fail> {
    let mut tray = MemTray::new(alloc, BTreeMap::new(alloc), Vec::new(alloc));
    match played(alloc, text, &mut tray)? {
        Ok(report) => Ok(Some((report.journal.len(), report.refused.len(), report.images))),
        Err(_) => Ok(None),
    }
}

#[test]
fn a_picture_is_saved(rt: HostRuntime) -> Result<(), Fail> {
    let got = counts(rt.alloc(), b"start 0\nwait 0\nsave 0 z.ppm\n")?;
    assert!(rt; got == Some((5, 0, 1)));
    Ok(())
}

#[test]
fn a_slot_is_painted_once(rt: HostRuntime) -> Result<(), Fail> {
    let text =
        b"add-layer 0 1 a\nstart 0\ntake\npreview 0 p\ngive\nwait 0\nstart 0\nwait 0\nsave 0 q\n";
    let got = counts(rt.alloc(), text)?;
    assert!(rt; got == Some((13, 0, 2)));
    Ok(())
}

#[test]
fn commands_are_refused(rt: HostRuntime) -> Result<(), Fail> {
    let text =
        b"pan 0 1 1\nzoom 0 2 1\nview 0 1 0 0 1\ngive\ntake\ncancel 0\nwait 1\nopacity 9 1\n";
    let got = counts(rt.alloc(), text)?;
    assert!(rt; got == Some((4, 6, 0)));
    Ok(())
}

/// The number of the picture that the tray failed to write, and how many were written before it.
fn failed_at(alloc: Global, text: &[u8], failing: Vec<u64>) -> Result<Option<(u32, u32)>, Fail> {
    let mut tray = MemTray::new(alloc, BTreeMap::new(alloc), failing);
    match played(alloc, text, &mut tray)? {
        Err(SessionError::Tray(image, report)) => Ok(Some((image, report.images))),
        Err(SessionError::NoMemory) => Ok(None),
        Ok(_) => Ok(None),
    }
}

#[test]
fn the_second_picture_is_not_kept(rt: HostRuntime) -> Result<(), Fail> {
    let alloc = rt.alloc();
    let failing = vec![in alloc; 2u64]?;
    let got = failed_at(
        alloc,
        b"start 0\nwait 0\nsave 0 a\nsave 0 b\nsave 0 c\n",
        failing,
    )?;
    assert!(rt; got == Some((2, 1)));
    Ok(())
}
