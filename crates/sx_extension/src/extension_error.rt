//! Why an extension file is refused.

use crate::plain_defect::PlainDefect;
use std::fmt;
use sx_notation::NotationError;
use sx_term::{NoMemory, Text};
use thiserror::Error;

/// Why an extension file is refused. Labels, and the names of rules and of parts, are as they stand
/// in the files.
#[derive(Drop, Error)]
pub enum ExtensionError {
    /// Memory is lacking.
    #[error("out of memory")]
    Memory,
    /// A line, a grammar, a text or the rule set is refused, and why.
    #[error("bad notation")]
    Notation(NotationError),
    /// The plain body of the production with this label is refused, and why.
    #[error("a bad plain body")]
    Plain(Text, PlainDefect),
    /// The plain production with this label has no plain body.
    #[error("no plain body")]
    NoPlain(Text),
    /// The rule with this name has a subject in its conclusion, and no body.
    #[error("a rule without a body")]
    NoBody(Text),
    /// The conclusion of the rule with this name has no subject, and a line states a body.
    #[error("a body of another sort")]
    BodySort(Text),
    /// The body of the rule with this name has typed syntax of the extension.
    #[error("a body of extended syntax")]
    BodyExtended(Text),
}

impl fmt::Debug for ExtensionError {
    fn fmt<W: fmt::Write>(&self, f: &mut fmt::Formatter<W>) -> fmt::Result {
        fmt::Display::fmt(self, f)
    }
}

impl From<NoMemory> for ExtensionError {
    ghost use Rattle.std.specs.Prelude.{◌≡◌};
    ghost use Rattle.sx_extension.specs.declared.extension_error.ExtensionError.TheVariants as why;

    ghost from_gives = { λ _ e. e ≡ why.Memory };

    fn from(_: NoMemory) -> ExtensionError {
        ExtensionError::Memory
    }
}
