//! Why a rule of an extension is refused.

use std::fmt;
use sx_derive::Blame;
use thiserror::Error;

/// Why a rule of an extension is refused.
#[derive(Drop, Error)]
pub enum RuleRefusal {
    /// The rule is not sound: by the rules that it is checked by, its flat conclusion has no
    /// derivation from its flat premises, and this goal is stuck.
    #[error("the rule is not sound")]
    Rejected(Blame),
    /// The search needs more tries than these.
    #[error("the tries are spent")]
    BudgetSpent(u64),
    /// The search comes to a goal that is deeper than this.
    #[error("a goal is too deep")]
    DepthSpent(u32),
    /// A flat term of the rule, or else one that the search makes, or else one of the lowered
    /// derivation, has this depth, which is more than 1,000. The number stays at the greatest
    /// u64.
    #[error("a term is too deep")]
    TooDeep(u64),
    /// Such a term has so many nodes, lexemes and variables, which are more than 1,000,000. The
    /// number stays at the greatest u64.
    #[error("a term has too many nodes")]
    TooBig(u64),
    /// The lowered derivation has more nodes than these.
    #[error("rewriting needs too many nodes")]
    RewriteSpent(u64),
    /// The lowered derivation is deeper than 3,000.
    #[error("rewriting goes too deep")]
    RewriteDeep,
}

impl fmt::Debug for RuleRefusal {
    fn fmt<W: fmt::Write>(&self, f: &mut fmt::Formatter<W>) -> fmt::Result {
        fmt::Display::fmt(self, f)
    }
}
