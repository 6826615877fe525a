//! The lines of a rule.

use sx_term::Text;

/// A premise, a conclusion or a body as it stands in its file.
#[derive(Drop)]
pub struct RuleLine {
    /// The number of the line, from 1.
    pub number: u32,
    /// Its bytes; those of a body with spaces in place of what stands before it.
    pub text: Text,
}

/// A rule as it stands in its file.
#[derive(Drop)]
pub struct RuleLines {
    /// The number of its first line, from 1.
    pub number: u32,
    pub name: Text,
    pub premises: Vec<RuleLine>,
    pub conclusion: RuleLine,
    /// The body that a `to` line of an extension file states; a rule of a language file has none.
    pub body: Option<RuleLine>,
}
