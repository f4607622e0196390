//! Lists among threads: a list may be moved to another thread, and read by several at a time.

ghost use Rattle.std.specs.Prelude.{◌≡◌, length};

use crate::Chunked;
use std::thread;
use std::thread::Threads;

/// The lengths of a list that another thread takes over, and of one that both threads read.
///
/// It shows that a list is `Send` and `Sync` where its elements are; `thread::join` asks for both here.
pub fn lengths_by_threads<R: Threads, T: Send + Sync + Drop>(
    rt: &R,
    moved: Chunked<T>,
    read: &Chunked<T>,
) -> (u64, u64, u64)
    ensures { result ≡ (length moved, length read.now, length read.now) }
{
    let (there, here) = thread::join(rt, move || (moved.len(), read.len()), move || read.len());
    (there.0, there.1, here)
}
