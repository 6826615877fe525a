//! Why a goal has no derivation.

use std::fmt;
use sx_rules::Goal;
use sx_term::{Path, Term};

/// Why a goal is stuck. Rules and premises count from 0, premises over all premises of the rule.
#[derive(Drop)]
pub enum Cause {
    /// No hypothesis has the inputs of the goal, and no rule's inputs match them.
    NoRule,
    /// The premise of the rule asks for two terms to be apart that are not.
    Equal {
        rule: u32,
        premise: usize,
    },
    /// The outputs that were got are not those that the premise of the rule asks for, or else not
    /// those that are wanted.
    Mismatch {
        by: Option<(u32, usize)>,
        got: Vec<Term>,
    },
}

/// A stuck goal, the place of its subject in the first goal's subject, and why it is stuck.
#[derive(Drop)]
pub struct Blame {
    pub goal: Goal,
    pub path: Path,
    pub cause: Cause,
}

impl fmt::Debug for Blame {
    fn fmt<W: fmt::Write>(&self, f: &mut fmt::Formatter<W>) -> fmt::Result {
        f.write_str("Blame")
    }
}
