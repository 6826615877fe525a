//! Extension rules.

use sx_rules::Rule;
use sx_term::Term;

/// A rule that an extension adds, and its body where its conclusion has a subject:
/// the term that the subject stands for.
#[derive(Drop)]
pub struct ExtRule {
    pub rule: Rule,
    pub body: Option<Term>,
}
