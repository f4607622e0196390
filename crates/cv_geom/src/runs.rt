//! Runs of pixels: columns of rows, and lists of them that are joined.

ghost use Rattle.std.specs.Prelude.{◌≡◌, ◌++◌, ◌∷◌, ◌⊎◌, [], true, OnOk, OnErr, option_to_list};
ghost use Rattle.cv_geom.specs.Runs.{BeginsAt, FollowEach, Unites, united, in_row, RunsAreApart, RunsAreFew};

use cv_model::{NoMemory, Span};
use std::alloc::Global;
use std::marker::Model;
use std::mem::swap;

/// How many runs are listed before they are joined for the first time.
const FEW: usize = 4_096;

/// The columns of a row of pixels from `from` up to and without `end`.
#[derive(Clone, Copy, Debug, PartialEq, Eq)]
pub struct Run {
    /// The row, of which the one at the top is 0.
    pub row: u32,
    /// The first column.
    pub from: u32,
    /// The column behind the last.
    pub end: u32,
}

/// A rectangle of pixels: its columns and its rows, each from `from` up to and without `end`.
#[derive(Clone, Copy, Debug, PartialEq, Eq)]
pub struct Area {
    /// The columns.
    pub columns: Span,
    /// The rows.
    pub rows: Span,
}

/// Runs of pixels, seen as a list of runs.
///
/// The memory that it has taken is kept when it is cleared, so that one list serves many features.
#[derive(Drop)]
pub struct Runs {
    runs: Vec<Run>,
    spare: Vec<Run>,
    many: usize,
}

impl Model for Runs {
    ghost use Rattle.std.specs.Prelude.{List};
    ghost use Rattle.cv_geom.specs.declared.runs.Run.{Run};

    ghost Value = { List Run };

    ghost view = { λ l. l.runs.items };
}

impl Runs {
    /// No runs. Takes no memory.
    pub fn new(alloc: Global) -> Self
        ensures { result ≡ [] }
    {
        Runs {
            runs: Vec::new(alloc),
            spare: Vec::new(alloc),
            many: FEW,
        }
    }

    /// Takes all runs out.
    pub fn clear(&mut self)
        ensures { self.new ≡ [] }
    {
        self.runs.clear();
        self.many = FEW;
    }

    /// Puts a run behind the others. A refusal changes nothing.
    pub fn put(&mut self, run: Run) -> Result<(), NoMemory>
        ensures ok { OnOk result (self.new ≡ self.old ++ run ∷ []) }
        ensures err { OnErr result (self.new ≡ self.old) }
    {
        self.runs.push(run)?;
        Ok(())
    }

    /// The runs in order.
    pub fn as_slice(&self) -> &[Run]
        ensures { result.now ≡ self.now }
    {
        self.runs.as_slice()
    }

    /// Puts the run of a row behind the others, if there is one. A refusal changes nothing.
    pub fn put_span(&mut self, row: u32, span: Option<Span>) -> Result<(), NoMemory>
        ensures ok { OnOk result (self.new ≡ self.old ++ in_row row (option_to_list span)) }
        ensures err { OnErr result (self.new ≡ self.old) }
    {
        match span {
            Some(found) => self.put(Run {
                row,
                from: found.from,
                end: found.end,
            }),
            None => Ok(()),
        }
    }

    /// Brings the runs into reading order, and joins those that overlap or touch in a row. Where memory
    /// wants, what is held is open.
    pub fn unite(&mut self) -> Result<(), NoMemory>
        ensures { OnOk result (Unites self.old self.new) }
    {
        if are_in_order(&self.runs) {
            return Ok(());
        }
        self.runs.sort_unstable_by_key(|run| (run.row, run.from));
        self.spare.clear();
        put_united(&self.runs, &mut self.spare)?;
        swap(&mut self.runs, &mut self.spare);
        Ok(())
    }

    /// Unites the runs, if there are many: 4,096, or twice as many as this left before.
    ///
    /// Who calls it while putting runs so holds about twice as many as they have different pixels, or 4,096,
    /// at most, however many are put. Where memory wants, what is held is open.
    pub fn unite_if_many(&mut self) -> Result<(), NoMemory>
        ensures { OnOk result ((self.new ≡ self.old) ⊎ Unites self.old self.new) }
    {
        if self.runs.len() < self.many {
            return Ok(());
        }
        self.unite()?;
        self.many = self.runs.len().saturating_mul(2).max(FEW);
        Ok(())
    }
}

/// Whether each of some runs begins behind the end of the one before it, or there.
fn are_in_order(runs: &[Run]) -> bool
    ensures { result ≡ true → FollowEach runs.now }
{
    for at in 1..runs.len() {
        if !begins_behind(runs[at], runs[at - 1]) {
            return false;
        }
    }
    true
}

/// Whether a run begins behind the end of another in reading order, or there.
fn begins_behind(b: Run, a: Run) -> bool
    ensures { result ≡ true → BeginsAt a.end a.row b }
{
    a.row < b.row || (a.row == b.row && a.end <= b.from)
}

/// Puts runs in reading order into an empty list, those that overlap or touch in a row as one.
fn put_united(runs: &[Run], into: &mut Vec<Run>) -> Result<(), NoMemory>
    requires { into.old.items ≡ [] }
    ensures { OnOk result (into.new.items ≡ united runs.now) }
{
    let Some((first, rest)) = runs.split_first() else {
        return Ok(());
    };
    let mut last = *first;
    for run in rest {
        if last.row == run.row && run.from <= last.end {
            last.end = last.end.max(run.end);
        } else {
            into.push(last)?;
            last = *run;
        }
    }
    into.push(last)?;
    Ok(())
}

/// No pixel lies on two of the runs of an area.
pub fn runs_are_apart()
    ensures { RunsAreApart }
{}

/// The runs of an area have together at most as many pixels as the area.
pub fn runs_are_few()
    ensures { RunsAreFew }
{}
