//! The kinds of files that are read line by line.

/// What a file is: its kind tells which words begin its lines.
#[derive(Clone, Copy, PartialEq, Eq, Debug)]
pub enum FileKind {
    /// A language file.
    Language,
    /// An extension file.
    Extension,
}
