//! Grammars.

ghost use Rattle.std.specs.Prelude.{◌≡◌};
ghost use Rattle.sx_grammar.specs.Parts.{parts};
ghost use Rattle.sx_grammar.specs.Tables.{IsTabled};

use crate::grammar_parts::GrammarParts;
use crate::numbered::NumberedProduction;
use crate::tables::Tables;
use std::marker::Model;
use sx_term::{Names, Text};

/// Sorts and productions that are well formed and not cyclic, and the tables by which they are read
/// and printed.
#[derive(Drop)]
pub struct Grammar {
    pub(crate) parts: GrammarParts,
    /// How many productions, the first ones, are base.
    pub(crate) base: usize,
    /// The literals and brackets, each once, in order of first standing.
    pub(crate) literals: Vec<Text>,
    /// The productions with the numbers of their literals and sorts.
    pub(crate) productions: Vec<NumberedProduction>,
    /// The literals that open and close the brackets of each sort, by their numbers.
    pub(crate) brackets: Vec<Option<(u32, u32)>>,
    /// The names of the sorts, to find their numbers.
    pub(crate) sort_names: Names,
    /// The literals, to find their numbers.
    pub(crate) literal_names: Names,
    /// The ranks of the sorts: each steps only to sorts of lower ranks.
    pub(crate) ranks: Vec<u32>,
}

impl Model for Grammar {
    ghost use Rattle.sx_grammar.specs.Parts as plain;
    ghost use Rattle.sx_grammar.specs.Tables.{GrammarData, IsTabled};

    ghost Value = { GrammarData };

    ghost view = { λ g. record { parts = plain.parts g.parts; base = g.base } };

    ghost invariant = { λ g. IsTabled (plain.parts g.parts) g.base g.literals.items
        g.productions.items g.brackets.items g.sort_names g.literal_names g.ranks.items };
}

impl Grammar {
    /// The grammar of the parts with their tables, of whose productions so many are base.
    pub(crate) fn of(from: GrammarParts, base: usize, made: Tables) -> Grammar
        requires { IsTabled (parts from) base made.literals.items made.productions.items
            made.brackets.items made.sort_names made.literal_names made.ranks.items }
        ensures { result ≡ record { parts = parts from; base = base } }
    {
        Grammar {
            parts: from,
            base,
            literals: made.literals,
            productions: made.productions,
            brackets: made.brackets,
            sort_names: made.sort_names,
            literal_names: made.literal_names,
            ranks: made.ranks,
        }
    }
}
