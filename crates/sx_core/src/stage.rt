//! Where the reading of a core file stands.

use sx_rules::{Goal, Judgement, Premise};
use sx_term::{Sort, Text};

/// A rule that is not ended: the line that begins it, its name, the sorts of its variables, and its
/// premises so far.
#[derive(Drop)]
pub(crate) struct Open {
    pub line: u32,
    pub name: Text,
    pub sorts: Vec<Sort>,
    pub premises: Vec<Premise>,
}

/// Where the reading stands: before the first line, among the declarations, between rules, among
/// the premises of a rule, after the conclusion of a rule, or after the goal.
#[derive(Drop)]
pub(crate) enum Stage {
    Start,
    Declaring,
    Between,
    Premising(Open),
    Concluded(Open, Judgement),
    Over(Goal),
}
