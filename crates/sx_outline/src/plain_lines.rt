//! The lines of a plain pair.

use crate::rule_lines::RuleLine;
use sx_term::Text;

/// A `plain` line and the line after it, as they stand in their file.
#[derive(Drop)]
pub struct PlainLines {
    /// The number of the first line, from 1.
    pub number: u32,
    /// The label of the production.
    pub label: Text,
    /// The names of the variables that stand for its parts, without `~`.
    pub names: Vec<Text>,
    pub body: RuleLine,
}
