//! What is bad about a line of a notation.

/// What is bad about a line of a notation, or about a line that is missing.
#[derive(Clone, Copy, PartialEq, Eq, Debug)]
pub enum Kind {
    /// The first line is not the stated one.
    Head,
    /// The line begins with no word of the notation.
    Directive,
    /// The parts after the word are not as stated.
    Shape,
    /// The place of such a line is past or has not come.
    Order,
    /// A rule is not ended.
    Unfinished,
    /// A line that must stand is missing.
    Main,
    /// A variable has no sort.
    Variable,
}
