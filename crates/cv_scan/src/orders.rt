//! Marks brought into order.

ghost use Rattle.std.specs.List.Sorted.{IsPermutation};
ghost use Rattle.cv_scan.specs.Orders.{AreInTurn};

use crate::marks::Mark;

/// Brings marks into order: the last one in reading order comes first.
pub fn bring_down(marks: &mut Vec<Mark>)
    ensures moved { IsPermutation marks.old.items marks.new.items }
    ensures order { AreInTurn marks.new.items }
{
    marks.sort_unstable_by_key(|mark| (mark.row, mark.column));
    marks.reverse();
}
