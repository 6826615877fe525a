//! How far a list is read.

use sx_arena::Arena;

/// The terms so far, each named by a number, and the place of the entry that is read next.
#[derive(Drop)]
pub(crate) struct Cursor {
    pub arena: Arena,
    pub next: usize,
}
