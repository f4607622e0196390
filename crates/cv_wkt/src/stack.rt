//! The lists that are open.

ghost use Rattle.std.specs.Prelude.{◌≡◌, ◌∷◌, [], OnOk};
ghost use Rattle.cv_wkt.specs.Refusals.{collections, is_collection};
ghost use Rattle.cv_wkt.specs.Stack.{first_of, Popped};

use crate::place::Frame;
use cv_model::NoMemory;
use std::alloc::Global;
use std::marker::Model;

/// The open lists, seen with the innermost first.
#[derive(Drop)]
pub struct Stack {
    frames: Vec<Frame>,
}

impl Model for Stack {
    ghost use Rattle.std.specs.Prelude.{List, reverse};
    ghost use Rattle.cv_wkt.specs.declared.place.Frame.{Frame};

    ghost Value = { List Frame };

    ghost view = { λ s. reverse s.frames.items };
}

fn is_collection(frame: Frame) -> bool
    ensures { result ≡ is_collection frame }
{
    match frame {
        Frame::Geometries => true,
        _ => false,
    }
}

impl Stack {
    /// No list is open.
    pub fn new(alloc: Global) -> Stack
        ensures { result ≡ [] }
    {
        Stack {
            frames: Vec::new(alloc),
        }
    }

    /// The innermost list.
    #[tactic(auto, using(crate::proofs::StackLemmas::reverse_top))]
    pub fn top(&self) -> Option<Frame>
        ensures { result ≡ first_of self.now }
    {
        self.frames.last().copied()
    }

    /// How many collections are open.
    #[tactic(auto, using(crate::proofs::StackLemmas::count_reverse))]
    pub fn collections(&self) -> u64
        ensures { result ≡ collections self.now }
    {
        self.frames
            .iter()
            .filter(|frame| is_collection(**frame))
            .count() as u64
    }

    /// Opens a list within the others.
    #[tactic(auto, using(crate::proofs::StackLemmas::reverse_pushed))]
    pub fn push(&mut self, frame: Frame) -> Result<(), NoMemory>
        ensures { OnOk result (self.new ≡ frame ∷ self.old) }
    {
        self.frames.push(frame)?;
        Ok(())
    }

    /// Closes the innermost list, if there is one, and answers which it was.
    #[tactic(auto, using(crate::proofs::StackLemmas::reverse_popped))]
    pub fn pop(&mut self) -> Option<Frame>
        ensures { Popped result self.old self.new }
    {
        self.frames.pop()
    }
}
