//! What a grammar tells.

ghost use Rattle.std.specs.Prelude.{◌≡◌, ◌<◌, ◌≤◌, ◌^◌, ◌↔◌, ℕ, length, slice_get, MatchOption};
ghost use Rattle.std.specs.Prelude.{Some, Contains, IsTrue, IfOk};
ghost use Rattle.sx_term.specs.Cutting.{AreDistinct};
ghost use Rattle.sx_term.specs.Term.{tree};
ghost use Rattle.sx_term.specs.Tree.{depth_of};
ghost use Rattle.sx_term.specs.Shapes.{shapes};
ghost use Rattle.sx_grammar.specs.Grammar.{pair_of, HasLevels};
ghost use Rattle.sx_grammar.specs.Parts.{parts, names, numbered};
ghost use Rattle.sx_grammar.specs.Print.{BracketsWhereAsked};
ghost use Rattle.sx_grammar.specs.Cyclic.{IsNotCyclic};
ghost use Rattle.sx_grammar.specs.Order.{IsRanking, rank_at};
ghost use Rattle.sx_grammar.specs.Cycles.{HaveSortsBelow, HavePartsBelow};
ghost use Rattle.sx_grammar.specs.Made.{IsGrammar};
ghost use Rattle.sx_grammar.specs.Tables.{literals_of, AreNumbered, HaveLiteralsBelow};
ghost use Rattle.sx_grammar.specs.Tables.{IsNumberedPair, IsWithinLimits};
ghost use Rattle.sx_grammar.specs.Told.{IsSortOfLabel, IsLevelOf, shapes_of, HasLabelsBelow};
ghost use Rattle.sx_term.specs.Limits.{most_depth};

use crate::grammar::Grammar;
use crate::grammar_parts::GrammarParts;
use crate::labels_below::has_labels_below;
use crate::numbered::NumberedProduction;
use crate::shaping::{cons, sort_with};
use std::alloc::Global;
use sx_term::{NoMemory, Shapes, Sort, Term, Text};

impl Grammar {
    /// The literals and brackets, each once, in order of first standing, sorts before productions.
    pub fn literals(&self) -> &[Text]
        ensures { result.now ≡ literals_of self.now.parts }
    {
        &self.literals
    }

    /// The sorts and productions.
    pub fn parts(&self) -> &GrammarParts
        ensures { parts result.now ≡ self.now.parts }
    {
        &self.parts
    }

    /// The productions with the numbers of their literals and sorts, which are those of literals
    /// and sorts of the grammar.
    pub fn productions(&self) -> &[NumberedProduction]
        ensures same { AreNumbered self.now.parts result.now }
        ensures below { HaveLiteralsBelow (length (literals_of self.now.parts)) result.now }
        ensures sorts { HaveSortsBelow (length self.now.parts.sorts) result.now }
        ensures parts { HavePartsBelow (length self.now.parts.sorts) result.now }
    {
        &self.productions
    }

    /// The sort of the production with this label.
    pub fn sort_of(&self, label: u32) -> Sort
        requires { label < length self.now.parts.productions }
        ensures { IsSortOfLabel self.now.parts label result }
    {
        let production = &self.productions[label as usize];
        sort_with(&self.parts.sorts, production.sort)
    }

    /// The level of the production with this label.
    pub fn level_of(&self, label: u32) -> u8
        requires { label < length self.now.parts.productions }
        ensures { IsLevelOf self.now.parts label result }
    {
        let production = &self.productions[label as usize];
        production.level
    }

    /// Whether every label in the term is that of a base production.
    pub fn is_base(&self, term: &Term) -> bool
        requires { depth_of (tree term.now) ≤ most_depth }
        ensures { IsTrue result ↔ HasLabelsBelow self.now.base (tree term.now) }
    {
        has_labels_below(term, self.base)
    }

    /// The sorts of labels and of their parts. The one refusal is out of memory.
    pub fn shapes(&self, alloc: Global) -> Result<Shapes, NoMemory>
        ensures { IfOk result (λ s. shapes s ≡ shapes_of self.now.parts) }
    {
        Ok(Shapes {
            cons: cons(alloc, &self.parts.sorts, &self.productions)?,
        })
    }

    /// The numbers of the literals that open and close the brackets of the sort with this number,
    /// or None where it has no brackets.
    pub fn brackets(&self, sort: u32) -> Option<(u32, u32)>
        ensures { IsNumberedPair (literals_of self.now.parts)
            (pair_of (numbered self.now.parts) sort) result }
    {
        let i = sort as usize;
        if i < self.brackets.len() {
            return self.brackets[i];
        }
        None
    }

    /// The ranks of the sorts by their numbers. A production of a sort whose other symbols derive
    /// the empty list has as its one further part only one of a sort of a lower rank.
    pub fn ranks(&self) -> &[u32]
        ensures ranking { IsRanking (numbered self.now.parts) (rank_at result.now) }
        ensures low { (sort : ℕ) → rank_at result.now sort < 2 ^ 32 }
    {
        &self.ranks
    }

    /// The number of the sort with this name, or None where no sort has it.
    pub fn sort_number(&self, name: &Text) -> Option<u32>
        ensures { MatchOption result (¬ (Contains (names self.now.parts) name.now))
            (λ n. slice_get (names self.now.parts) n ≡ Some name.now) }
    {
        match self.sort_names.number(name.bytes()) {
            Some(number) => Some(number as u32),
            None => None,
        }
    }

    /// The number of the literal with these bytes, or None where no literal has them.
    pub fn literal_number(&self, text: &[u8]) -> Option<u32>
        ensures { MatchOption result (¬ (Contains (literals_of self.now.parts) text.now))
            (λ n. slice_get (literals_of self.now.parts) n ≡ Some text.now) }
    {
        match self.literal_names.number(text) {
            Some(number) => Some(number as u32),
            None => None,
        }
    }

    /// What holds of every grammar: its parts are those of a grammar, can be numbered by a u32 and
    /// have levels of at most 99; its base productions are among its productions, and its literals
    /// are distinct.
    pub fn facts(&self)
        ensures grammar { IsGrammar self.now.parts }
        ensures limits { IsWithinLimits self.now.parts }
        ensures base { self.now.base ≤ length self.now.parts.productions }
        ensures literals { AreDistinct (literals_of self.now.parts) }
        ensures few { length (literals_of self.now.parts) < 2 ^ 32 }
        ensures levels { HasLevels (numbered self.now.parts) }
        ensures brackets { BracketsWhereAsked (numbered self.now.parts) }
        ensures not_cyclic { IsNotCyclic (numbered self.now.parts) }
    {
        let _ = &self.base;
    }
}
