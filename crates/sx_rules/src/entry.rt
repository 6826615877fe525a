//! Entries of derivation lists.

/// What stands at a node of a derivation: a rule, or a hypothesis. Numbers count from 0.
#[derive(Clone, Copy, PartialEq, Eq, Debug)]
pub enum Entry {
    Rule(u32),
    Given(u32),
}
