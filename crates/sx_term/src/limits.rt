//! The limits of terms, of what is read and of what is searched.

/// The most levels of a term.
pub const MOST_DEPTH: u32 = 1000;

/// The most nodes, lexemes and variables of a term.
pub const MOST_SIZE: u64 = 1_000_000;

/// The most variables of a rule.
pub const MOST_VARIABLES: usize = 64;

/// The most tokens of a text.
pub const MOST_TOKENS: usize = 10_000;

/// The most bytes of a file that is no derivation list, and of a text that is printed.
pub const MOST_BYTES: u32 = 262_144;

/// The most tries of a search, and the most nodes of a derivation that is rewritten, that a
/// command may ask for.
pub const MOST_BUDGET: u64 = 1_000_000;
