//! Random lists of calls by several callers, from seeds: each answer beside that of a plain fold, each
//! picture beside the one of the painter that tests each centre.
use crate::Table;
use crate::fold::{Fold, FoldJob, Ground};
use crate::play::{BESIDE, FIRST, HALVED, WIDER, two, two_store};
use cv_blend::merge;
use cv_compose::{ComposeInput, Composed, compose};
use cv_desk::{EndError, PreviewError, SaveError, SetViewError, StartError};
use cv_layer::{PaintedLayer, Piece};
use cv_model::{Blend, NoMemory, Picture, Rgb, View};
use cv_outside::Never;
use cv_paint::plain;
use cv_script::{Command, Script};
use std::alloc::{AllocError, Global};
use std::test::Fail;

/// A number below another one, of the sequence that a seed determines.
fn next(seed: &mut u32, below: u32) -> u32 {
    *seed = seed.wrapping_mul(1_664_525).wrapping_add(1_013_904_223);
    if below == 0 { 0 } else { (*seed >> 8) % below }
}

const EDITS: &str = concat!(
    "opacity 1 9\nopacity 2 128\nopacity 9 9\nset-style 1 fill 646464\nset-style 1 fill c8c8c8\n",
    "set-style 2 fill 8b8b8b\nset-style 3 fill 000000\nset-mask 1 none\nset-mask 1 3\nset-mask 9 none\n",
    "background 8b8b8b\n"
);

/// Makes one of the edits of a script. Answers whether it was answered rightly.
fn edit(
    table: &mut Table,
    fold: &mut Fold,
    script: &Script,
    who: u32,
    at: u32,
) -> Result<bool, NoMemory> {
    let Some(numbered) = script.commands().get(at as usize) else {
        return Ok(false);
    };
    let Command::Edit(edit) = &numbered.command else {
        return Ok(false);
    };
    let refused = table.edit(who, edit.clone()?).err();
    let right = fold.follow(table.desk().journal())?;
    Ok(right && refused == fold.refused())
}

/// Why no job is started on a canvas, by the fold. There are the canvases 0 and 1.
fn start_error(fold: &Fold, canvas: u32) -> Option<StartError> {
    if canvas > 1 {
        return Some(StartError::UnknownCanvas);
    }
    if fold.is_shown(canvas) {
        None
    } else {
        Some(StartError::NoView)
    }
}

/// Starts a job. Answers whether that was right, and the canvas's view too.
fn start(table: &mut Table, fold: &Fold, who: u32, canvas: u32) -> bool {
    let view = table.desk().view(canvas);
    let viewed = if canvas > 1 {
        view.is_none()
    } else {
        fold.shows(canvas, view)
    };
    let number = fold.jobs().wrapping_add(1);
    match table.start(who, canvas) {
        Ok(job) => viewed && start_error(fold, canvas).is_none() && job == number,
        Err(error) => viewed && start_error(fold, canvas) == Some(error),
    }
}

/// One of the three views, or one of another size.
fn view_of(at: u32) -> View {
    match at {
        0 => FIRST,
        1 => BESIDE,
        2 => HALVED,
        _ => WIDER,
    }
}

/// Gives a canvas a view. Answers whether that was right.
fn set_view(table: &mut Table, who: u32, canvas: u32, at: u32) -> bool {
    let error = if canvas > 1 {
        Some(SetViewError::UnknownCanvas)
    } else if at > 2 {
        Some(SetViewError::Size)
    } else {
        None
    };
    table.set_view(who, canvas, view_of(at)).err() == error
}

/// The image of a job's slot, where it is ready, by the painter that tests each centre.
fn plain_slot(alloc: Global, job: &FoldJob, at: u32) -> Result<Option<PaintedLayer>, NoMemory> {
    if !job.is_ready(at) {
        return Ok(None);
    }
    let Some(input) = job.input(at) else {
        return Ok(None);
    };
    let piece = Piece {
        job: 0,
        slot: at,
        input: input.clone()?,
        view: view_of(u32::from(job.view())),
    };
    match plain(alloc, &piece, &mut Never) {
        Ok(painted) => Ok(Some(painted)),
        Err(_) => Err(AllocError),
    }
}

/// Whether a slot of a composition has this image, or none where there is none.
fn is_slot(input: &ComposeInput, at: u32, plain: &Option<PaintedLayer>) -> bool {
    match (input.layers().as_slice().get(at as usize), plain) {
        (Some(Some(painted)), Some(plain)) => {
            let pixels = painted.value().image().pixels().as_slice();
            pixels == plain.image().pixels().as_slice()
        }
        (Some(None), None) => true,
        _ => false,
    }
}

/// A pixel of an image merged onto a colour, where the image is there.
fn merged(below: Rgb, plain: &Option<PaintedLayer>, at: usize, opacity: u8, mode: Blend) -> Rgb {
    let Some(painted) = plain else {
        return below;
    };
    match painted.image().pixels().as_slice().get(at) {
        Some(colour) => merge(below, *colour, opacity, mode),
        None => below,
    }
}

/// Whether a picture is the ground with both images merged onto it, the lower one first.
fn is_picture(
    picture: &Picture,
    ground: Ground,
    low: &Option<PaintedLayer>,
    high: &Option<PaintedLayer>,
) -> bool {
    let [lower, upper] = ground.opacities;
    let mut at: usize = 0;
    for pixel in picture.pixels().as_slice() {
        let below = merged(ground.background, low, at, lower, Blend::Normal);
        if merged(below, high, at, upper, Blend::Multiply) != *pixel {
            return false;
        }
        at = at.wrapping_add(1);
    }
    at == 16
}

/// Whether a composition is that of a job's ready slots.
fn is_of(alloc: Global, composed: &Composed, job: Option<&FoldJob>) -> Result<bool, NoMemory> {
    let Some(job) = job else {
        return Ok(false);
    };
    let low = plain_slot(alloc, job, 0)?;
    let high = plain_slot(alloc, job, 1)?;
    let input = composed.input();
    let slots = is_slot(input, 0, &low) && is_slot(input, 1, &high);
    Ok(slots && is_picture(composed.picture(), job.ground(), &low, &high))
}

/// Why a job isn't ended, by the fold.
fn end_error(fold: &Fold, job: u32) -> Option<EndError> {
    let Some(job) = fold.job(job) else {
        return Some(EndError::UnknownJob);
    };
    match job.ended() {
        Some(how) => Some(EndError::Ended(how)),
        None => None,
    }
}

/// Why a job isn't shown, by the fold.
fn preview_error(fold: &Fold, job: u32) -> Option<PreviewError> {
    match end_error(fold, job) {
        Some(EndError::UnknownJob) => Some(PreviewError::UnknownJob),
        Some(EndError::Ended(how)) => Some(PreviewError::Ended(how)),
        None => None,
    }
}

/// Why a canvas has no picture, by the fold.
fn save_error(fold: &Fold, canvas: u32) -> Option<SaveError> {
    if canvas > 1 {
        return Some(SaveError::UnknownCanvas);
    }
    if fold.published(canvas) == 0 {
        Some(SaveError::Nothing)
    } else {
        None
    }
}

/// Whether a desk tells a job's end as the fold does.
fn tells_end(table: &Table, fold: &Fold, job: u32) -> bool {
    match (table.desk().ended(job), fold.job(job)) {
        (Ok(how), Some(job)) => job.ended() == how,
        (Err(_), None) => true,
        _ => false,
    }
}

/// Shows a job's ready slots. Answers whether that was right.
fn preview(
    alloc: Global,
    table: &mut Table,
    fold: &Fold,
    who: u32,
    job: u32,
) -> Result<bool, NoMemory> {
    let right = preview_error(fold, job);
    match table.preview(who, job) {
        Ok(input) => {
            let composed = compose(alloc, input)?;
            Ok(right.is_none() && is_of(alloc, &composed, fold.job(job))?)
        }
        Err(error) => Ok(right == Some(error)),
    }
}

/// Takes the picture that a canvas has published. Answers whether that was right.
fn save(
    alloc: Global,
    table: &mut Table,
    fold: &Fold,
    who: u32,
    canvas: u32,
) -> Result<bool, NoMemory> {
    let right = save_error(fold, canvas);
    match table.published(who, canvas) {
        Ok(composed) => {
            let job = fold.job(fold.published(canvas));
            Ok(right.is_none() && is_of(alloc, composed.value(), job)?)
        }
        Err(error) => Ok(right == Some(error)),
    }
}

/// Ends a job. Answers whether that was right.
fn end(table: &mut Table, fold: &Fold, who: u32, job: u32, fails: bool) -> bool {
    let told = tells_end(table, fold, job);
    let ended = if fails {
        table.fail(who, job)
    } else {
        table.cancel(who, job)
    };
    told && ended.err() == end_error(fold, job)
}

/// A call of a caller. Answers whether it was answered rightly, as far as no entry tells it.
fn call(
    alloc: Global,
    table: &mut Table,
    fold: &mut Fold,
    script: &Script,
    seed: &mut u32,
) -> Result<bool, NoMemory> {
    let who = next(seed, 3);
    let canvas = match next(seed, 9) {
        0 => 2,
        at => at % 2,
    };
    let job = fold.jobs().wrapping_add(next(seed, 3)).saturating_sub(1);
    match next(seed, 20) {
        0 => return Ok(set_view(table, who, canvas, next(seed, 4))),
        1 | 2 => return edit(table, fold, script, who, next(seed, 11)),
        3 | 4 => return Ok(start(table, fold, who, canvas)),
        5 => return Ok(end(table, fold, who, job, next(seed, 3) == 0)),
        6 => return preview(alloc, table, fold, who, job),
        7 => return save(alloc, table, fold, who, canvas),
        8 | 9 | 10 | 11 => return Ok(table.work(who % 3 + 1) == Ok(fold.is_due())),
        12 | 13 => table.give()?,
        _ if table.holds() => table.give()?,
        _ => return Ok(table.take() == Ok(fold.is_due())),
    }
    Ok(true)
}

/// So many calls, and whether each was answered rightly.
fn calls(
    alloc: Global,
    fold: &mut Fold,
    capacity: u32,
    seed: u32,
    count: u32,
) -> Result<u32, Fail> {
    let mut table = two(alloc, capacity)?;
    let Ok(script) = cv_script::read(alloc, EDITS.as_bytes()) else {
        return Err(Fail::from(AllocError));
    };
    let mut seed = seed;
    let mut right: u32 = 0;
    fold.follow(table.desk().journal())?;
    for _ in 0..count {
        let answered = call(alloc, &mut table, fold, &script, &mut seed)?;
        if fold.follow(table.desk().journal())? && answered {
            right = right.wrapping_add(1);
        }
    }
    Ok(right)
}

#[test]
fn random_calls_are_answered_as_by_the_fold(rt: HostRuntime) -> Result<(), Fail> {
    let alloc = rt.alloc();
    for capacity in 0..3 {
        let mut fold = Fold::new(alloc, two_store(alloc)?, capacity);
        let right = calls(alloc, &mut fold, capacity, capacity.wrapping_add(7), 3000)?;
        assert_eq!(rt; right, 3000);
        let (hits, [stored, kept, dropped]) = fold.counts();
        assert_eq!(rt; (hits > 20, stored > 50), (capacity > 0, capacity > 0));
        assert!(rt; kept > 20 && dropped > 10);
        assert!(rt; fold.published(0) > 50 && fold.published(1) > 50);
    }
    Ok(())
}
