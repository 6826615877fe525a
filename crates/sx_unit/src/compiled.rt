//! Compiled modules.

use sx_rules::Entry;

/// The three texts of a module, and its numbers.
#[derive(Drop)]
pub struct Compiled {
    /// The base program.
    pub base: Vec<u8>,
    /// The interface for importers.
    pub interface: Vec<u8>,
    /// The derivation as a list of rules.
    pub derivation: Vec<u8>,
    /// The entries of that list.
    pub list: Vec<Entry>,
    /// How many nodes the derivation has.
    pub nodes: u64,
    /// How many tokens the body has.
    pub source_tokens: u32,
    /// How many tokens the printed body has.
    pub base_tokens: u32,
}
