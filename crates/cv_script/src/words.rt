//! The words of a line.

ghost use Rattle.std.specs.Prelude.{◌≡◌, ◌++◌, ◌∷◌, []};
ghost use Rattle.cv_script.specs.Answers.{Answers};
ghost use Rattle.cv_script.specs.Words.{words_of};

use crate::error::Refusal;
use crate::place::{Act, Place};
use cv_model::Sequence;
use std::alloc::Global;
use std::mem;

/// The bytes of a word, without the quotes round it.
pub type Word = Sequence<u8>;

/// The words of a line.
#[tactic(auto, unfolding(crate::specs::Words::words_of))]
pub fn words(alloc: Global, line: &[u8]) -> Result<Sequence<Word>, Refusal>
    ensures { Answers result (words_of line.now) }
{
    let mut place = Place::Between;
    let mut word = Word::new(alloc);
    let mut words = Sequence::new(alloc);
    for byte in line {
        let Some((next, act)) = place.next(*byte) else {
            return Err(Refusal::Bad);
        };
        place = next;
        match act {
            Act::Skip => {}
            Act::Keep => word.put(*byte)?,
            Act::End => words.put(mem::replace(&mut word, Word::new(alloc)))?,
        }
    }
    match place {
        Place::Between => Ok(words),
        Place::Bare | Place::Closed => {
            words.put(word)?;
            Ok(words)
        }
        Place::Quoted => Err(Refusal::Bad),
    }
}
