//! Budgets of derivations.

ghost use Rattle.std.specs.Prelude.{◌≡◌, ◌++◌, OnOk};
ghost use Rattle.sx_words.specs.RefusalText.{budget_text};

use crate::parts::{put_number, put_words};
use std::alloc::Global;
use sx_term::NoMemory;

/// Which budget or limit a derivation passes. At `Position::Rule` in accepting a rule.
#[derive(Drop)]
pub enum BudgetDefect {
    /// The tries that the walk may take.
    Tries(u64),
    /// The derivation is too deep.
    Depth,
    /// The nodes that a rewritten derivation may have.
    Nodes(u64),
    /// The rewritten derivation is too deep.
    RewriteDepth,
}

/// Appends the defect's text.
pub(crate) fn put_budget(
    alloc: Global,
    defect: &BudgetDefect,
    into: &mut Vec<u8>,
) -> Result<(), NoMemory>
    ensures { OnOk result (into.new.items ≡ into.old.items ++ budget_text defect.now) }
{
    match defect {
        BudgetDefect::Tries(n) => put_number(alloc, b"more than ", *n, b" tries", into),
        BudgetDefect::Depth => put_words(b"derivation deeper than 3000", into),
        BudgetDefect::Nodes(n) => put_number(
            alloc,
            b"rewriting needs more than ",
            *n,
            b" nodes",
            into,
        ),
        BudgetDefect::RewriteDepth => put_words(b"rewritten derivation deeper than 3000", into),
    }
}
