//! Many threads on one turn: what no clause says is that they all come through.
ghost use Rattle.std.specs.Prelude.{◌≡◌, ◌-◌, ◌<◌, length, None};
ghost use Rattle.std.specs.Thread.{IsSync};
ghost use Rattle.cv_turn.specs.Pass.{IsSamePass};

use super::*;
use std::alloc::Global;
use std::sync::Wait;
use std::test::*;
use std::thread;
use std::thread::Threads;

/// Marks, each beside the number of the caller that made it, under a name.
#[derive(Drop)]
struct Diary {
    name: u32,
    marks: Vec<(u32, u32)>,
}

impl Held for Diary {
    type Fixed = u32;

    type Entry = (u32, u32);

    ghost fixed = { λ d. d.name };

    ghost entries = { λ d. d.marks.items };

    ghost caller = { λ e. e.0 };

    fn len(&self) -> u64 {
        self.marks.len() as u64
    }
}

/// One turn with a mark, or with none where there is no memory.
fn note_down<R: Wait>(rt: &R, turn: &Turn<Diary>, pass: &mut Pass<Diary>, mark: u32) -> bool
    requires own { pass.old.table ≡ turn.now.table }
    requires free { pass.old.turn ≡ None }
    ensures { IsSamePass pass.old pass.new }
{
    let number = pass.number();
    let mut guard = turn.enter(rt, pass);
    let made = guard.held().marks.push((number, mark)).is_ok();
    turn.leave(pass, guard);
    made
}

/// One turn with nothing done.
fn look<R: Wait>(rt: &R, turn: &Turn<Diary>, pass: &mut Pass<Diary>)
    requires own { pass.old.table ≡ turn.now.table }
    requires free { pass.old.turn ≡ None }
    ensures { IsSamePass pass.old pass.new }
{
    let guard = turn.enter(rt, pass);
    turn.leave(pass, guard);
}

/// A hundred turns, every other one with a mark.
fn take_turns<R: Wait>(rt: &R, turn: &Turn<Diary>, pass: &mut Pass<Diary>)
    requires own { pass.old.table ≡ turn.now.table }
    requires free { pass.old.turn ≡ None }
    ensures { IsSamePass pass.old pass.new }
{
    for mark in 0..50 {
        note_down(rt, turn, pass, mark);
        look(rt, turn, pass);
    }
}

/// Hands the numbers to threads, one to each, lets each take its turns, and joins the passes again.
fn work<R: Threads + Wait + Sync>(
    rt: &R,
    turn: &Turn<Diary>,
    mut pass: Pass<Diary>,
    count: u32,
) -> Pass<Diary>
    requires own { pass.table ≡ turn.now.table }
    requires free { pass.turn ≡ None }
    requires count { (length pass.own ≡ count) × (0 < count) }
    ensures { IsSamePass pass result }
{
    let half = count / 2;
    if half == 0 {
        take_turns(rt, turn, &mut pass);
        return pass;
    }
    let Ok(other) = turn.split(&mut pass, half) else {
        return pass;
    };
    let (mut pass, other) = thread::join(
        rt,
        move || -> Pass<Diary>
            requires { IsSync R.row × (pass.table ≡ turn.now.table) × (pass.turn ≡ None)
                × (length pass.own ≡ count - half) × (half < count) }
            ensures { IsSamePass pass result }
        { work(rt, turn, pass, count - half) },
        move || -> Pass<Diary>
            requires { IsSync R.row × (other.table ≡ turn.now.table) × (other.turn ≡ None)
                × (length other.own ≡ half) × (0 < half) }
            ensures { IsSamePass other result }
        { work(rt, turn, other, half) },
    );
    turn.join(&mut pass, other);
    pass
}

fn is_sent<T: Send>() {}

fn is_shared<T: Sync>() {}

/// Where a value may go to another thread, so may its turn, which threads share, the passes, the notes and
/// the guards.
fn goes_to_threads<H: Held + Send>() {
    is_sent::<Turn<H>>();
    is_shared::<Turn<H>>();
    is_sent::<Pass<H>>();
    is_sent::<Note<H>>();
    is_sent::<Guard<H>>();
}

/// The marks of one caller, in order.
fn marks_of(alloc: Global, diary: &Diary, number: u32) -> Result<Vec<u32>, NoMemory> {
    let mut marks = Vec::new(alloc);
    for mark in &diary.marks {
        if mark.0 == number {
            marks.push(mark.1)?;
        }
    }
    Ok(marks)
}

#[test]
fn eight_threads_take_a_hundred_turns_each(rt: HostRuntime) -> Result<(), Fail> {
    let diary = Diary {
        name: 7,
        marks: Vec::new(rt.alloc()),
    };
    goes_to_threads::<Diary>();
    let (turn, pass) = Turn::new(rt.alloc(), diary, 8)?;
    let pass = work(&rt, &turn, pass, 8);
    assert!(rt; turn.whole(&pass));
    assert_eq!(rt; pass.number(), 0);
    let diary = turn.close(pass);
    assert_eq!(rt; diary.name, 7);
    assert_eq!(rt; diary.len(), 400);
    for number in 0..8 {
        let marks = marks_of(rt.alloc(), &diary, number)?;
        assert_eq!(rt; marks.len(), 50);
        for (place, mark) in marks.iter().enumerate() {
            assert_eq!(rt; *mark as usize, place);
        }
    }
    Ok(())
}

#[test]
fn a_note_tells_a_third_what_was_seen(rt: HostRuntime) -> Result<(), Fail> {
    let diary = Diary {
        name: 7,
        marks: Vec::new(rt.alloc()),
    };
    let (turn, mut first) = Turn::new(rt.alloc(), diary, 3)?;
    let mut third = turn.split(&mut first, 1)?;
    let mut second = turn.split(&mut first, 1)?;
    assert!(rt; note_down(&rt, &turn, &mut first, 1));
    let note = turn.note(&mut first)?;
    assert!(rt; note_down(&rt, &turn, &mut second, 2));
    assert_eq!(rt; (first.seen(), second.seen(), third.seen()), (1, 2, 0));
    turn.meet(&mut third, note);
    assert_eq!(rt; third.seen(), 1);
    let note = turn.note(&mut second)?;
    turn.meet(&mut third, note);
    assert_eq!(rt; third.seen(), 2);
    turn.join(&mut first, second);
    turn.join(&mut first, third);
    assert_eq!(rt; first.seen(), 2);
    let diary = turn.close(first);
    assert_eq!(rt; diary.marks.as_slice(), [(0, 1), (1, 2)].as_slice());
    Ok(())
}
