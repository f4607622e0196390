//! Why a text is no grid.

/// A word of a header, or the two words for one axis.
#[derive(Clone, Copy, Debug, PartialEq, Eq)]
pub enum GridWord {
    /// `ncols`
    Ncols,
    /// `nrows`
    Nrows,
    /// `xllcorner` or `xllcenter`
    Xll,
    /// `yllcorner` or `yllcenter`
    Yll,
    /// `cellsize`, or `dx` and `dy`
    Cellsize,
    /// `dx`, where `dy` stands.
    Dx,
    /// `dy`, where `dx` stands.
    Dy,
}

/// Why a text is no grid. Offsets and lines count behind a byte order mark.
#[derive(Clone, Copy, Debug, PartialEq, Eq)]
pub enum GridError {
    /// The first word that the header lacks.
    MissingWord(GridWord),
    /// With the line, from 1, of a word that is unknown or speaks of what an earlier word said.
    BadWord(u32),
    /// With the offset of a token in the place of a number, or the text's length where there is none.
    BadNumber(u64),
    /// With the number of values; there are fewer than cells.
    TooFew(u32),
    /// There are more values than cells.
    TooMany,
    /// There are more cells than there is room for, or an edge lies beyond 10^15 millionths either way.
    TooLarge,
    /// There was no memory.
    NoMemory,
}
