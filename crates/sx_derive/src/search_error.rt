//! Why a search goes no further.

use std::fmt;
use sx_term::NoMemory;
use thiserror::Error;

/// Why a search goes no further.
#[derive(Drop, Error)]
pub enum SearchError {
    #[error("out of memory")]
    Memory,
    /// A derivation would be deeper than this many levels.
    #[error("a derivation is too deep")]
    DepthSpent(u32),
    /// A term would have this depth.
    #[error("a term is too deep")]
    TooDeep(u64),
    /// A term would have this size.
    #[error("a term has too many nodes")]
    TooBig(u64),
}

impl fmt::Debug for SearchError {
    fn fmt<W: fmt::Write>(&self, f: &mut fmt::Formatter<W>) -> fmt::Result {
        fmt::Display::fmt(self, f)
    }
}

impl From<NoMemory> for SearchError {
    ghost use Rattle.std.specs.Prelude.{◌≡◌};
    ghost use Rattle.sx_derive.specs.declared.search_error.SearchError.TheVariants.{Memory};

    ghost from_gives = { λ _ e. e ≡ Memory };

    fn from(_e: NoMemory) -> SearchError {
        SearchError::Memory
    }
}
