//! Why a plain body is no entry of a plain table.

use std::fmt;
use sx_term::Text;
use thiserror::Error;

/// Why a plain body is no entry of a plain table.
#[derive(Drop, Error)]
pub enum PlainDefect {
    /// The production has a plain body before this one.
    #[error("a production has two plain bodies")]
    Twice,
    /// The production with this label, the first in the body, is not base and has no plain body
    /// before this one.
    #[error("a plain body uses a production without one")]
    UsesLater(Text),
    /// The part with this name, the first, does not stand in the body.
    #[error("a plain body drops a part")]
    Drops(Text),
    /// The flat body has this depth, which is more than 1,000.
    #[error("a flat body is too deep")]
    TooDeep(u32),
    /// The flat body has so many nodes, lexemes and variables, which are more than 1,000,000; at
    /// most 2^64 - 1 are told.
    #[error("a flat body has too many nodes")]
    TooBig(u64),
}

impl fmt::Debug for PlainDefect {
    fn fmt<W: fmt::Write>(&self, f: &mut fmt::Formatter<W>) -> fmt::Result {
        fmt::Display::fmt(self, f)
    }
}
