//! Files that are given.

/// A file: its name, and what it holds.
#[derive(Clone, Copy)]
pub struct File {
    pub name: &'static str,
    pub text: &'static [u8],
}
