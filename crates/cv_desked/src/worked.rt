//! Worked lists of calls: the journal that each leaves, and pictures.
use crate::play::{NARROW, blank, greys, lines, play, played, published, two};
use crate::{Held, Table};
use cv_compose::compose;
use cv_desk::{EndError, PreviewError, SaveError, StartError, UnknownJob};
use cv_event::How;
use cv_model::{NoMemory, Rgb};
use std::alloc::{AllocError, Global};
use std::test::Fail;

const WHOLE: &str = concat!(
    "1 0 view 0 0 8000000 1000000 4 4\n2 0 start 0 1\n3 0 look 1 0 miss\n4 0 deliver 1 0 stored\n",
    "5 0 look 1 1 miss\n6 0 deliver 1 1 stored\n7 0 compose 1\n8 0 finish 1\n"
);

const SERVED: &str = concat!(
    "9 0 save 0 1\n10 0 start 0 2\n11 0 look 2 0 hit\n12 0 look 2 1 hit\n13 0 compose 2\n",
    "14 0 finish 2\n15 0 save 0 2\nend 15 0\n"
);

/// The lines of a whole job before these.
fn behind(alloc: Global, rest: &str) -> Result<String, NoMemory> {
    let mut text = String::from_str(alloc, WHOLE)?;
    text.push_str(rest)?;
    Ok(text)
}

/// Whether canvas 0 has published a picture of these greys.
fn shows(alloc: Global, table: &mut Table, letters: &str) -> Result<bool, NoMemory> {
    let found = published(alloc, table)?;
    Ok(found.as_str() == letters)
}

#[test]
fn a_second_job_is_served(rt: HostRuntime) -> Result<(), Fail> {
    let alloc = rt.alloc();
    let mut table = two(alloc, 16)?;
    play(alloc, &mut table, "start 0\nwait 0\n")?;
    assert!(rt; shows(alloc, &mut table, "wwwwwddwcmmccccc")?);
    play(alloc, &mut table, "start 0\nwait 0\n")?;
    assert!(rt; shows(alloc, &mut table, "wwwwwddwcmmccccc")?);
    let want = behind(alloc, SERVED)?;
    assert_eq!(rt; lines(alloc, table.desk())?.as_slice(), want.as_bytes());
    Ok(())
}

const A_MASK_IS_EDITED_MEANWHILE: &str = concat!(
    "1 0 view 0 0 8000000 1000000 4 4\n2 0 start 0 1\n3 0 edit 1 ok\n4 0 look 1 0 miss\n",
    "5 0 deliver 1 0 kept\n6 0 look 1 1 miss\n7 0 deliver 1 1 stored\n8 0 compose 1\n",
    "9 0 finish 1\n10 0 start 0 2\n11 0 look 2 0 miss\n12 0 deliver 2 0 stored\n",
    "13 0 look 2 1 hit\n14 0 compose 2\n15 0 finish 2\n16 0 save 0 2\nend 16 0\n"
);

#[test]
fn a_mask_is_edited_meanwhile(rt: HostRuntime) -> Result<(), Fail> {
    let alloc = rt.alloc();
    let mut table = two(alloc, 16)?;
    play(
        alloc,
        &mut table,
        "start 0\nremove-feature 3 1\nwait 0\nstart 0\nwait 0\n",
    )?;
    assert_eq!(rt; published(alloc, &mut table)?.as_str(), "wwwwwddwwddwwwww");
    assert_eq!(rt;
        lines(alloc, table.desk())?.as_slice(),
        A_MASK_IS_EDITED_MEANWHILE.as_bytes()
    );
    Ok(())
}

const AN_OPACITY_LEAVES_THE_CACHE: &str = concat!(
    "9 0 edit 1 ok\n10 0 start 0 2\n11 0 look 2 0 hit\n12 0 look 2 1 hit\n13 0 compose 2\n",
    "14 0 finish 2\n15 0 save 0 2\nend 15 0\n"
);

#[test]
fn an_opacity_leaves_the_cache(rt: HostRuntime) -> Result<(), Fail> {
    let alloc = rt.alloc();
    let mut table = two(alloc, 16)?;
    play(
        alloc,
        &mut table,
        "start 0\nwait 0\nopacity 2 128\nstart 0\nwait 0\n",
    )?;
    assert_eq!(rt; published(alloc, &mut table)?.as_str(), "wwwwwhhwcnnccccc");
    let want = behind(alloc, AN_OPACITY_LEAVES_THE_CACHE)?;
    assert_eq!(rt; lines(alloc, table.desk())?.as_slice(), want.as_bytes());
    Ok(())
}

const A_CANCELLED_JOB_IS_NOT_PUBLISHED: &str = concat!(
    "1 0 view 0 0 8000000 1000000 4 4\n2 0 start 0 1\n3 0 look 1 0 miss\n4 0 cancel 1\n",
    "5 0 deliver 1 0 dropped\nend 5 0\n"
);

#[test]
fn a_cancelled_job_is_not_published(rt: HostRuntime) -> Result<(), Fail> {
    let alloc = rt.alloc();
    let mut table = two(alloc, 16)?;
    play(alloc, &mut table, "start 0\ntake\ncancel 0\ngive\n")?;
    assert!(rt; table.published(0, 0).err() == Some(SaveError::Nothing));
    assert!(rt; table.cancel(0, 1) == Err(EndError::Ended(How::Cancelled)));
    assert_eq!(rt;
        lines(alloc, table.desk())?.as_slice(),
        A_CANCELLED_JOB_IS_NOT_PUBLISHED.as_bytes()
    );
    Ok(())
}

// A caller without a cache, which holds a piece while its job is cancelled.
#[test]
fn an_image_of_a_cancelled_job_is_dropped(rt: HostRuntime) -> Result<(), Fail> {
    let alloc = rt.alloc();
    let mut table = two(alloc, 0)?;
    play(alloc, &mut table, "start 0\ntake\n")?;
    assert!(rt; table.cancel(0, 1) == Ok(()));
    assert!(rt; table.holds());
    assert!(rt; table.give() == Ok(()));
    assert!(rt; table.fail(0, 1) == Err(EndError::Ended(How::Cancelled)));
    assert!(rt; table.published(0, 0).err() == Some(SaveError::Nothing));
    assert_eq!(rt;
        lines(alloc, table.desk())?.as_slice(),
        A_CANCELLED_JOB_IS_NOT_PUBLISHED.as_bytes()
    );
    Ok(())
}

const A_FAILED_JOB_IS_NOT_PUBLISHED: &str = concat!(
    "1 0 view 0 0 8000000 1000000 4 4\n2 0 start 0 1\n3 0 look 1 0 miss\n4 2 fail 1\n",
    "5 0 deliver 1 0 dropped\nend 5 0\n"
);

#[test]
fn a_failed_job_is_not_published(rt: HostRuntime) -> Result<(), Fail> {
    let alloc = rt.alloc();
    let mut table = two(alloc, 16)?;
    play(alloc, &mut table, "start 0\ntake\n")?;
    assert!(rt; table.desk().ended(1) == Ok(None));
    assert!(rt; table.fail(2, 1) == Ok(()));
    assert!(rt; table.desk().ended(1) == Ok(Some(How::NoMemory)));
    assert!(rt; table.give() == Ok(()));
    assert!(rt; table.published(0, 0).err() == Some(SaveError::Nothing));
    assert_eq!(rt;
        lines(alloc, table.desk())?.as_slice(),
        A_FAILED_JOB_IS_NOT_PUBLISHED.as_bytes()
    );
    Ok(())
}

const A_START_CANCELS_THE_LAST_JOB: &str = concat!(
    "1 0 view 0 0 8000000 1000000 4 4\n2 0 start 0 1\n3 0 look 1 0 miss\n4 0 start 0 2\n",
    "5 0 deliver 1 0 dropped\n6 0 look 2 0 miss\n7 0 deliver 2 0 stored\n8 0 look 2 1 miss\n",
    "9 0 deliver 2 1 stored\n10 0 compose 2\n11 0 finish 2\nend 11 0\n"
);

#[test]
fn a_start_cancels_the_last_job(rt: HostRuntime) -> Result<(), Fail> {
    let alloc = rt.alloc();
    let lines = played(alloc, 16, "start 0\ntake\nstart 0\ngive\nwait 0\n")?;
    assert_eq!(rt; lines.as_slice(), A_START_CANCELS_THE_LAST_JOB.as_bytes());
    Ok(())
}

const A_MASK_COMES_AGAIN: &str = concat!(
    "9 0 edit 1 ok\n10 0 edit 2 ok\n11 0 edit 3 ok\n12 0 edit 4 ok\n13 0 start 0 2\n",
    "14 0 look 2 0 miss\n15 0 deliver 2 0 stored\n16 0 look 2 1 hit\n17 0 compose 2\n",
    "18 0 finish 2\n19 0 save 0 2\nend 19 0\n"
);

#[test]
fn a_mask_comes_again(rt: HostRuntime) -> Result<(), Fail> {
    let alloc = rt.alloc();
    let mut table = two(alloc, 16)?;
    play(
        alloc,
        &mut table,
        concat!(
            "start 0\nwait 0\nremove-layer 3\nadd-layer 2 3 mask\n",
            "add-feature 3 1 \"POLYGON((0 2,4 2,4 4,0 4,0 2))\"\nhide 3\nstart 0\n",
            "wait 0\n"
        ),
    )?;
    assert_eq!(rt; published(alloc, &mut table)?.as_str(), "cccccmmcwddwwwww");
    let want = behind(alloc, A_MASK_COMES_AGAIN)?;
    assert_eq!(rt; lines(alloc, table.desk())?.as_slice(), want.as_bytes());
    Ok(())
}

const ONE_IMAGE_IS_KEPT: &str = concat!(
    "9 0 start 0 2\n10 0 look 2 0 miss\n11 0 deliver 2 0 stored\n12 0 look 2 1 miss\n",
    "13 0 deliver 2 1 stored\n14 0 compose 2\n15 0 finish 2\nend 15 0\n"
);

#[test]
fn one_image_is_kept(rt: HostRuntime) -> Result<(), Fail> {
    let alloc = rt.alloc();
    let lines = played(alloc, 1, "start 0\nwait 0\nstart 0\nwait 0\n")?;
    let want = behind(alloc, ONE_IMAGE_IS_KEPT)?;
    assert_eq!(rt; lines.as_slice(), want.as_bytes());
    Ok(())
}

const NO_IMAGE_IS_KEPT: &str = concat!(
    "1 0 view 0 0 8000000 1000000 4 4\n2 0 start 0 1\n3 0 look 1 0 miss\n",
    "4 0 deliver 1 0 kept\n5 0 look 1 1 miss\n6 0 deliver 1 1 kept\n7 0 compose 1\n",
    "8 0 finish 1\nend 8 0\n"
);

#[test]
fn no_image_is_kept(rt: HostRuntime) -> Result<(), Fail> {
    let alloc = rt.alloc();
    let lines = played(alloc, 0, "start 0\nwait 0\n")?;
    assert_eq!(rt; lines.as_slice(), NO_IMAGE_IS_KEPT.as_bytes());
    Ok(())
}

const A_REFUSED_EDIT_IS_AN_ENTRY: &str = "9 0 edit 1 unknown-layer\n10 0 save 0 1\nend 10 0\n";

#[test]
fn a_refused_edit_is_an_entry(rt: HostRuntime) -> Result<(), Fail> {
    let alloc = rt.alloc();
    let lines = played(alloc, 16, "start 0\nwait 0\nopacity 9 10\nsave 0 a\n")?;
    let want = behind(alloc, A_REFUSED_EDIT_IS_AN_ENTRY)?;
    assert_eq!(rt; lines.as_slice(), want.as_bytes());
    Ok(())
}

const A_PREVIEW_COMES_BETWEEN: &str = concat!(
    "1 0 view 0 0 8000000 1000000 4 4\n2 0 start 0 1\n3 0 look 1 0 miss\n",
    "4 0 deliver 1 0 stored\n5 0 preview 1 0\n6 0 look 1 1 miss\n7 0 deliver 1 1 stored\n",
    "8 0 compose 1\n9 0 finish 1\nend 9 0\n"
);

#[test]
fn a_preview_comes_between(rt: HostRuntime) -> Result<(), Fail> {
    let alloc = rt.alloc();
    let lines = played(alloc, 16, "start 0\ntake\ngive\npreview 0 p\nwait 0\n")?;
    assert_eq!(rt; lines.as_slice(), A_PREVIEW_COMES_BETWEEN.as_bytes());
    Ok(())
}

const A_ZOOM_EMPTIES_THE_CACHE: &str = concat!(
    "9 0 view 0 2000000 6000000 500000 4 4\n10 0 start 0 2\n11 0 look 2 0 miss\n",
    "12 0 deliver 2 0 stored\n13 0 look 2 1 miss\n14 0 deliver 2 1 stored\n15 0 compose 2\n",
    "16 0 finish 2\nend 16 0\n"
);

#[test]
fn a_zoom_empties_the_cache(rt: HostRuntime) -> Result<(), Fail> {
    let alloc = rt.alloc();
    let lines = played(alloc, 16, "start 0\nwait 0\nzoom 0 1 2\nstart 0\nwait 0\n")?;
    let want = behind(alloc, A_ZOOM_EMPTIES_THE_CACHE)?;
    assert_eq!(rt; lines.as_slice(), want.as_bytes());
    Ok(())
}

const A_VIEW_COMES_BACK: &str = concat!(
    "9 0 view 0 18000000 8000000 1000000 4 4\n10 0 view 0 0 8000000 1000000 4 4\n",
    "11 0 start 0 2\n12 0 look 2 0 hit\n13 0 look 2 1 hit\n14 0 compose 2\n15 0 finish 2\n",
    "end 15 0\n"
);

#[test]
fn a_view_comes_back(rt: HostRuntime) -> Result<(), Fail> {
    let alloc = rt.alloc();
    let lines = played(
        alloc,
        16,
        "start 0\nwait 0\npan 0 9 0\npan 0 -9 0\nstart 0\nwait 0\n",
    )?;
    let want = behind(alloc, A_VIEW_COMES_BACK)?;
    assert_eq!(rt; lines.as_slice(), want.as_bytes());
    Ok(())
}

const A_MASK_EDITED_LATE_LEAVES_THE_PICTURE: &str = concat!(
    "1 0 view 0 0 8000000 1000000 4 4\n2 0 start 0 1\n3 0 look 1 0 miss\n",
    "4 0 deliver 1 0 kept\n5 0 look 1 1 miss\n6 0 deliver 1 1 kept\n7 0 edit 1 ok\n",
    "8 0 compose 1\n9 0 finish 1\nend 9 0\n"
);

#[test]
fn a_mask_edited_late_leaves_the_picture(rt: HostRuntime) -> Result<(), Fail> {
    let alloc = rt.alloc();
    let mut table = two(alloc, 0)?;
    play(
        alloc,
        &mut table,
        "start 0\ntake\ngive\ntake\ngive\nremove-feature 3 1\nwait 0\n",
    )?;
    assert_eq!(rt;
        lines(alloc, table.desk())?.as_slice(),
        A_MASK_EDITED_LATE_LEAVES_THE_PICTURE.as_bytes()
    );
    assert_eq!(rt; published(alloc, &mut table)?.as_str(), "wwwwwddwcmmccccc");
    Ok(())
}

// What the calls answer themselves.
#[test]
fn a_job_that_was_cancelled_is_refused(rt: HostRuntime) -> Result<(), Fail> {
    let alloc = rt.alloc();
    let mut table = two(alloc, 16)?;
    play(alloc, &mut table, "start 0\ntake\nstart 0\n")?;
    assert!(rt; table.desk().ended(1) == Ok(Some(How::Cancelled)));
    assert!(rt; table.desk().ended(3) == Err(UnknownJob));
    assert!(rt; table.preview(0, 1).err() == Some(PreviewError::Ended(How::Cancelled)));
    assert!(rt; table.fail(0, 1) == Err(EndError::Ended(How::Cancelled)));
    assert!(rt; table.published(0, 0).err() == Some(SaveError::Nothing));
    assert!(rt; table.start(0, 1) == Err(StartError::NoView));
    Ok(())
}

#[test]
fn a_preview_shows_what_is_ready(rt: HostRuntime) -> Result<(), Fail> {
    let alloc = rt.alloc();
    let mut table = two(alloc, 16)?;
    play(alloc, &mut table, "start 0\ntake\ngive\n")?;
    let Ok(input) = table.preview(0, 1) else {
        return Err(Fail::from(AllocError));
    };
    let made = compose(alloc, input)?;
    assert_eq!(rt; greys(alloc, &made)?.as_str(), "wwwwwwwwcccccccc");
    Ok(())
}

// Two callers: caller 0 holds the first slot while caller 1 does the rest that is due.
#[test]
fn a_slot_is_delivered_behind_the_others(rt: HostRuntime) -> Result<(), Fail> {
    let alloc = rt.alloc();
    let mut table = two(alloc, 16)?;
    play(alloc, &mut table, "start 0\ntake\n")?;
    assert!(rt; table.work(1) == Ok(true));
    assert!(rt; table.work(1) == Ok(false));
    assert!(rt; table.give() == Ok(()));
    assert!(rt; table.work(1) == Ok(true));
    assert_eq!(rt; published(alloc, &mut table)?.as_str(), "wwwwwddwcmmccccc");
    assert!(rt; table.fail(1, 1) == Err(EndError::Ended(How::Finished)));
    Ok(())
}

const A_PROJECT_WITHOUT_LAYERS: &str = concat!(
    "1 0 view 0 0 2000000 1000000 2 1\n2 0 start 0 1\n3 0 compose 1\n4 0 finish 1\n",
    "5 0 save 0 1\nend 5 0\n"
);

/// Whether a canvas has published two pixels of the colour of the project without layers.
fn is_blank(table: &mut Table) -> bool {
    let Ok(composed) = table.published(0, 0) else {
        return false;
    };
    let colour = Rgb {
        r: 0x10,
        g: 0x20,
        b: 0x30,
    };
    composed.value().picture().pixels().as_slice() == [colour, colour].as_slice()
}

/// The job of which caller 0 holds the composition, with the number of its slots.
fn composing(table: &Table) -> Option<(u32, u64)> {
    match table.held() {
        Held::Compose(job, input) => Some((*job, input.layers().len())),
        _ => None,
    }
}

#[test]
fn a_project_without_layers_is_its_background(rt: HostRuntime) -> Result<(), Fail> {
    let alloc = rt.alloc();
    let mut table = blank(alloc)?;
    assert!(rt; table.set_view(0, 0, NARROW) == Ok(()));
    play(alloc, &mut table, "start 0\nwait 0\n")?;
    assert!(rt; is_blank(&mut table));
    assert_eq!(rt;
        lines(alloc, table.desk())?.as_slice(),
        A_PROJECT_WITHOUT_LAYERS.as_bytes()
    );
    Ok(())
}

// The same by its calls.
#[test]
fn a_job_without_slots_is_composed_at_once(rt: HostRuntime) -> Result<(), Fail> {
    let alloc = rt.alloc();
    let mut table = blank(alloc)?;
    assert!(rt; table.start(0, 0) == Err(StartError::NoView));
    assert!(rt; table.set_view(0, 0, NARROW) == Ok(()));
    assert!(rt; table.start(0, 0) == Ok(1));
    assert!(rt; table.take() == Ok(true));
    assert!(rt; composing(&table) == Some((1, 0)));
    assert!(rt; table.give() == Ok(()));
    Ok(())
}

#[test]
fn a_finished_job_has_its_end(rt: HostRuntime) -> Result<(), Fail> {
    let alloc = rt.alloc();
    let mut table = blank(alloc)?;
    assert!(rt; table.set_view(0, 0, NARROW) == Ok(()));
    play(alloc, &mut table, "start 0\ntake\ngive\n")?;
    assert!(rt; is_blank(&mut table));
    assert!(rt; table.desk().ended(1) == Ok(Some(How::Finished)));
    assert!(rt; table.cancel(0, 1) == Err(EndError::Ended(How::Finished)));
    assert!(rt; table.cancel(0, 2) == Err(EndError::UnknownJob));
    assert!(rt; table.take() == Ok(false));
    assert_eq!(rt; table.desk().journal().len(), 5);
    Ok(())
}

#[test]
fn a_journal_is_handed_out(rt: HostRuntime) -> Result<(), Fail> {
    let table = two(rt.alloc(), 16)?;
    assert!(rt; table.desk().view(0).is_some());
    assert!(rt; table.desk().view(1).is_none());
    assert_eq!(rt; table.into_journal().len(), 1);
    Ok(())
}
