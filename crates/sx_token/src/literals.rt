//! The literals of a grammar, kept for many texts.

ghost use Rattle.std.specs.Prelude.{◌≡◌, ◌<◌, ◌≤◌, ◌^◌, length, IfOk, IfSome};
ghost use Rattle.sx_term.specs.Cutting.{AreDistinct, Outcome, IsOutcome};
ghost use Rattle.sx_token.specs.Tokens.{outcome_of};
ghost use Rattle.sx_term.specs.Limits.{most_bytes};

use crate::cut::cut;
use crate::table::{Table, make_table};
use crate::token::Token;
use crate::token_error::TokenError;
use std::alloc::Global;
use std::marker::Model;
use std::str;
use sx_term::{NoMemory, Text};

/// Distinct literals in their order, in a table that cuts any number of texts.
#[derive(Drop)]
pub struct Literals<'a> {
    table: Table<'a>,
}

impl<'a> Model for Literals<'a> {
    ghost use Rattle.std.specs.Prelude.{ℕ, List};
    ghost use Rattle.sx_term.specs.Cutting.{AreDistinct};
    ghost use Rattle.sx_token.specs.Table.{IsLiteralTable};

    ghost Value = { List (List ℕ) };

    ghost view = { λ l. l.table.literals.now };

    ghost invariant = { λ l. AreDistinct l.table.literals.now ×
        IsLiteralTable l.table.literals.now l.table };
}

impl<'a> Literals<'a> {
    /// The table of the literals.
    pub fn new(alloc: Global, literals: &'a [Text]) -> Result<Literals<'a>, NoMemory>
        requires distinct { AreDistinct literals.now }
        requires few { length literals.now < 2 ^ 32 }
        ensures { IfOk result (λ l. l ≡ literals.now) }
    {
        Ok(Literals {
            table: make_table(alloc, literals)?,
        })
    }

    /// The tokens of the text, or its first defect. Metavariables stand only where `metas` is true.
    pub fn tokens(&self, alloc: Global, bytes: &[u8], metas: bool) -> Result<Vec<Token>, TokenError>
        requires { length bytes.now ≤ most_bytes }

        // The answer is the cutting of the text, or its first defect, unless memory runs out.
        ensures outcome { IfSome (outcome_of result) (IsOutcome self.now metas bytes.now) }

        // What holds of the text is answered, unless memory runs out.
        ensures only { (o : Outcome) → IsOutcome self.now metas bytes.now o →
            IfSome (outcome_of result) (λ answer. answer ≡ o) }
    {
        let table = &self.table;
        match str::from_utf8(bytes) {
            Ok(text) => cut(alloc, table, text, metas),
            Err(e) => Err(TokenError::NotUtf8(e.valid_up_to() as u32)),
        }
    }
}
