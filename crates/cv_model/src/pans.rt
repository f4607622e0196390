//! By how many pixels a view lies from another one.

ghost use Rattle.std.specs.Prelude.{◌≡◌, ◌≤◌, ◌*◌, pos, negsuc, neg_ℤ, ◌-ℤ◌, ◌≤ℤ◌};
ghost use Rattle.std.specs.Prelude.{option_map, option_and_then};
ghost use Rattle.cv_model.specs.Pans.{are_alike, pan_of, whole_steps};
ghost use Rattle.cv_model.specs.Positions.{IsDoubled};
ghost use Rattle.cv_model.specs.Views.{natural};

use crate::view::View;

/// By how many pixels `new` lies eastwards and southwards from `old`; below 0 westwards and northwards.
///
/// None exactly where `new` is no pan of `old` by whole pixels: where the side of a pixel or a size differs,
/// or a distance isn't filled by whole pixels. A view is a pan of itself by `(0, 0)`. Takes no memory.
///
/// Source: this project's own.
#[tactic(auto, unfolding(crate::specs::Pans::pan_of))]
pub fn pan_of(old: &View, new: &View) -> Option<(i64, i64)>
    ensures { result ≡ pan_of old.now new.now }
{
    if !are_alike(old, new) {
        return None;
    }
    both(steps_east(old, new), steps_south(old, new))
}

/// Both numbers, if there are two.
fn both(dx: Option<i64>, dy: Option<i64>) -> Option<(i64, i64)>
    ensures { result ≡ option_and_then (λ dx. option_map (λ dy. (dx, dy)) dy) dx }
{
    match dx {
        Some(dx) => beside(dx, dy),
        None => None,
    }
}

/// A number beside another, if there is one.
fn beside(dx: i64, dy: Option<i64>) -> Option<(i64, i64)>
    ensures { result ≡ option_map (λ dy. (dx, dy)) dy }
{
    match dy {
        Some(dy) => Some((dx, dy)),
        None => None,
    }
}

/// How many whole pixels eastwards a view lies from another, if they fill the way.
fn steps_east(old: &View, new: &View) -> Option<i64>
    ensures { result ≡ whole_steps (2 * natural old.now.u) (new.now.lx2 -ℤ old.now.lx2) }
{
    steps_between(old.lx2, new.lx2, step(old))
}

/// How many whole pixels southwards a view lies from another, if they fill the way.
fn steps_south(old: &View, new: &View) -> Option<i64>
    ensures { result ≡ whole_steps (2 * natural old.now.u) (old.now.ty2 -ℤ new.now.ty2) }
{
    steps_between(new.ty2, old.ty2, step(old))
}

/// Whether two views have pixels of one side, and one size.
fn are_alike(a: &View, b: &View) -> bool
    ensures { result ≡ are_alike a.now b.now }
{
    a.u == b.u && a.w == b.w && a.h == b.h
}

/// The length of two pixels' sides, which is a pixel's side in doubled millionths.
fn step(view: &View) -> u64
    ensures value { result ≡ 2 * natural view.now.u }
    ensures some { 1 ≤ result }
{
    2 * view.u as u64
}

/// How many whole steps lead from one coordinate to another, if they fill the way.
fn steps_between(from: i64, to: i64, length: u64) -> Option<i64>
    requires from { IsDoubled from }
    requires to { IsDoubled to }
    requires length { 1 ≤ length }
    ensures { result ≡ whole_steps length (to -ℤ from) }
{
    whole_steps(way(from, to), length)
}

/// The way from one coordinate to another.
fn way(from: i64, to: i64) -> i64
    requires from { IsDoubled from }
    requires to { IsDoubled to }
    ensures value { result ≡ to -ℤ from }
    ensures low { negsuc 7999999999999999 ≤ℤ result }
    ensures high { result ≤ℤ pos 8000000000000000 }
{
    to - from
}

/// How many whole steps lead this way, if they fill it.
fn whole_steps(way: i64, length: u64) -> Option<i64>
    requires low { negsuc 7999999999999999 ≤ℤ way }
    requires high { way ≤ℤ pos 8000000000000000 }
    requires length { 1 ≤ length }
    ensures { result ≡ whole_steps length way }
{
    if way.unsigned_abs() % length != 0 {
        return None;
    }
    let steps = way.unsigned_abs() / length;
    Some(if way < 0 { back(steps) } else { steps as i64 })
}

/// A number of steps the other way.
fn back(steps: u64) -> i64
    requires { steps ≤ 8000000000000000 }
    ensures { result ≡ neg_ℤ (pos steps) }
{
    -(steps as i64)
}
