//! Where the cells of a grid lie.

ghost use Rattle.std.specs.Prelude.{◌≡◌, ◌≤◌, ◌*◌, pos, negsuc, ◌+ℤ◌, ◌≤ℤ◌, IfOk};
ghost use Rattle.cv_grid.specs.Layouts.{edge_of, far_edge, layout_of, is_beyond, is_far, is_large};
ghost use Rattle.cv_grid.specs.Ranges.{IsInRange, IsAnchor, IsSide, IsLaidInRange};

use crate::error::GridWord;
use crate::settings::{Anchor, Settings};

/// The numbers of a grid without its cells: edges in doubled millionths, sides of cells in millionths.
#[derive(Clone, Copy)]
pub struct Layout {
    pub cols: u32,
    pub rows: u32,
    pub left2: i64,
    pub bottom2: i64,
    pub dx: u64,
    pub dy: u64,
}

fn edge(anchor: Anchor, side: u64) -> i64
    requires anchor { IsAnchor anchor }
    requires side { IsSide side }
    ensures value { result ≡ edge_of anchor side }
    ensures range { (negsuc 2999999999999999 ≤ℤ result) × (result ≤ℤ pos 2000000000000000) }
{
    match anchor {
        Anchor::Corner(corner) => 2 * corner,
        Anchor::Centre(centre) => 2 * centre - side as i64,
    }
}

fn far_edge(edge: i64, cells: u32, side: u64) -> i128
    requires side { IsSide side }
    ensures { result ≡ far_edge edge cells side }
{
    let span = 2 * (u128::from(cells) * u128::from(side));
    i128::from(edge) + span as i128
}

fn is_beyond(edge: i128) -> bool
    ensures { result ≡ is_beyond edge }
{
    edge < -2_000_000_000_000_000 || edge > 2_000_000_000_000_000
}

/// Whether of so many cells the first edge or the last lies beyond 10^15 millionths either way.
fn is_far(edge: i64, cells: u32, side: u64) -> bool
    requires side { IsSide side }
    ensures { result ≡ is_far edge cells side }
{
    is_beyond(i128::from(edge)) || is_beyond(far_edge(edge, cells, side))
}

impl Layout {
    /// Where the cells lie by what a header said, or the first word that is missing.
    pub fn of(said: &Settings) -> Result<Layout, GridWord>
        requires { IsInRange said.now }
        ensures value { result ≡ layout_of said.now }
        ensures range { IfOk result IsLaidInRange }
    {
        let cols = said.cols.ok_or(GridWord::Ncols)?;
        let rows = said.rows.ok_or(GridWord::Nrows)?;
        let left = said.left.ok_or(GridWord::Xll)?;
        let bottom = said.bottom.ok_or(GridWord::Yll)?;
        match (said.dx, said.dy) {
            (Some(dx), Some(dy)) => Ok(Layout {
                cols,
                rows,
                left2: edge(left, dx),
                bottom2: edge(bottom, dy),
                dx,
                dy,
            }),
            (None, Some(_)) => Err(GridWord::Dx),
            (Some(_), None) => Err(GridWord::Dy),
            (None, None) => Err(GridWord::Cellsize),
        }
    }

    /// How many cells there are.
    pub fn cells(&self) -> u64
        ensures { result ≡ self.now.cols * self.now.rows }
    {
        u64::from(self.cols) * u64::from(self.rows)
    }

    /// Whether there are more cells than there is room for, or an edge lies beyond 10^15 millionths.
    pub fn is_large(&self, room: u32) -> bool
        requires { IsLaidInRange self.now }
        ensures { result ≡ is_large room self.now }
    {
        self.cells() > u64::from(room)
            || is_far(self.left2, self.cols, self.dx)
            || is_far(self.bottom2, self.rows, self.dy)
    }
}
