//! The limits of rule sets and derivations.

/// The most rules of a rule set.
pub const MOST_RULES: usize = 4096;

/// The most levels of a derivation.
pub const MOST_LEVELS: u32 = 3000;
