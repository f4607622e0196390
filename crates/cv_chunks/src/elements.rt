//! The elements of a list, one after another.

ghost use Rattle.std.specs.Prelude.{◌≡◌, []};
ghost use Rattle.std.specs.Iterator.{YieldsFirstRef, item_count};
ghost use Rattle.cv_chunks.specs.Runs.{elements_left};

use crate::Chunked;

/// The elements of a list that are still to come.
#[derive(Drop)]
pub struct Elements<'a, T> {
    list: &'a Chunked<T>,
    run: &'a [T],
    behind: u64,
}

impl<T> Chunked<T> {
    /// The elements in order, lent.
    pub fn iter(&self) -> Elements<'_, T>
        ensures { elements_left result.list.now result.run.now result.behind ≡ self.now }
    {
        Elements {
            list: self,
            run: &[],
            behind: 0,
        }
    }
}

impl<'a, T> Elements<'a, T> {
    /// Takes the next run where the one at hand is at its end.
    fn refill(&mut self)
        ensures same { elements_left self.new.list.now self.new.run.now self.new.behind
            ≡ elements_left self.old.list.now self.old.run.now self.old.behind }
        ensures end { self.new.run.now ≡ []
            → elements_left self.old.list.now self.old.run.now self.old.behind ≡ [] }
    {
        if self.run.is_empty() && self.behind < self.list.len() {
            self.run = self.list.run_from(self.behind);
            self.behind += self.run.len() as u64;
        }
    }
}

impl<'a, T> Iterator for Elements<'a, T> {
    type Item = &'a T;

    ghost next_gives = { YieldsFirstRef (λ s. elements_left s.list.now s.run.now s.behind) };

    ghost remaining = { item_count (λ s. elements_left s.list.now s.run.now s.behind) };

    fn next(&mut self) -> Option<&'a T> {
        self.refill();
        let (first, others) = self.run.split_first()?;
        self.run = others;
        Some(first)
    }
}
