//! Where the reading of a language file or of an extension file stands.

use crate::rule_lines::{RuleLine, RuleLines};
use sx_term::Text;

/// A rule that has begun.
#[derive(Drop)]
pub(crate) struct Begun {
    /// The number of its first line.
    pub number: u32,
    pub name: Text,
    pub premises: Vec<RuleLine>,
}

/// A plain pair that has begun.
#[derive(Drop)]
pub(crate) struct BegunPlain {
    /// The number of its first line.
    pub number: u32,
    pub label: Text,
    pub names: Vec<Text>,
}

/// Where the reading stands.
#[derive(Drop)]
pub(crate) enum Stage {
    /// before the first line
    Start,
    /// among the declarations
    Declarations,
    /// after the first line of a plain pair
    Body(BegunPlain),
    /// between plain pairs
    Plains,
    /// between rules
    Rules,
    /// among the premises of a rule
    Premises(Begun),
    /// after the `---` of a rule
    Conclusion(Begun),
    /// after the conclusion of a rule
    End(RuleLines),
}
