//! What no clause says: each call that takes memory can answer, and texts as they are printed.
use crate::{Act, Entry, Fate, Journal, Reason, Refused, RefusedList, text};
use cv_chunks::Shared;
use cv_model::{Edit, EditError, NoMemory, View};
use std::alloc::Global;
use std::test::Fail;

const FIRST: View = View {
    lx2: 0,
    ty2: 8_000_000,
    u: 1_000_000,
    w: 4,
    h: 4,
};

const TWICE: &str = "1 0 view 0 0 8000000 1000000 4 4\n2 0 start 0 1\n3 0 look 1 0 miss\n\
4 0 deliver 1 0 stored\n5 0 look 1 1 miss\n6 0 deliver 1 1 stored\n7 0 compose 1\n8 0 finish 1\n\
9 0 save 0 1\n10 0 start 0 2\n11 0 look 2 0 hit\n12 0 look 2 1 hit\n13 0 compose 2\n14 0 finish 2\n\
15 0 save 0 2\nend 15 2\n";

const REFUSED_EDIT: &str = "1 0 view 0 0 8000000 1000000 4 4\n2 0 start 0 1\n3 0 look 1 0 miss\n\
4 0 deliver 1 0 stored\n5 0 look 1 1 miss\n6 0 deliver 1 1 stored\n7 0 compose 1\n8 0 finish 1\n\
9 0 edit 1 unknown-layer\n10 0 save 0 1\nrefused 3 9 unknown-layer\nend 10 1\n";

/// Puts an act of caller 0 behind the others.
fn put(journal: &mut Journal, act: Act) -> Result<(), NoMemory> {
    journal.reserve(1)?;
    journal.push(Entry { caller: 0, act });
    Ok(())
}

/// Puts the acts of a job whose two slots each get an image, or have one.
fn put_job(journal: &mut Journal, job: u32, cached: bool) -> Result<(), NoMemory> {
    put(journal, Act::Start(0, job))?;
    for slot in 0..2u32 {
        put(journal, Act::Look(job, slot, cached))?;
        if !cached {
            put(journal, Act::Deliver(job, slot, Fate::Stored))?;
        }
    }
    put(journal, Act::Compose(job))?;
    put(journal, Act::Finish(job))
}

/// The edit of a layer that isn't there.
fn refused_edit(alloc: Global) -> Result<Act, NoMemory> {
    let edit = Edit::SetOpacity {
        layer: 9,
        opacity: 10,
    };
    match Shared::of(alloc, edit) {
        Ok(edit) => Ok(Act::Edit(edit, Some(EditError::UnknownLayer))),
        Err(refused) => Err(refused.1),
    }
}

#[test]
fn a_second_job_of_the_same_view_is_served(rt: HostRuntime) -> Result<(), Fail> {
    let alloc = rt.alloc();
    let mut journal = Journal::new(alloc);
    put(&mut journal, Act::View(0, FIRST))?;
    put_job(&mut journal, 1, false)?;
    put(&mut journal, Act::Save(0, 1))?;
    put_job(&mut journal, 2, true)?;
    put(&mut journal, Act::Save(0, 2))?;
    let refused = RefusedList::new(alloc);
    let text = text(alloc, &journal, &refused, 2)?;
    assert!(rt; text.as_slice() == TWICE.as_bytes());
    assert_eq!(rt; journal.len(), 15);
    assert!(rt; journal.get(14).is_some());
    assert!(rt; journal.get(15).is_none());
    Ok(())
}

#[test]
fn a_refused_edit_is_told_twice(rt: HostRuntime) -> Result<(), Fail> {
    let alloc = rt.alloc();
    let mut journal = Journal::new(alloc);
    put(&mut journal, Act::View(0, FIRST))?;
    put_job(&mut journal, 1, false)?;
    put(&mut journal, refused_edit(alloc)?)?;
    put(&mut journal, Act::Save(0, 1))?;
    let mut refused = RefusedList::new(alloc);
    refused.put(Refused {
        line: 3,
        seen: 9,
        reason: Reason::UnknownLayer,
    })?;
    let text = text(alloc, &journal, &refused, 1)?;
    assert!(rt; text.as_slice() == REFUSED_EDIT.as_bytes());
    Ok(())
}
