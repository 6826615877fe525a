//! Levels from which heads are kept up to each place.

ghost use Rattle.std.specs.Prelude.{◌≡◌, ◌+◌, ◌<◌, ℕ, [], Some, IfOk, IfSome, IsTrue, OnOk, length};
ghost use Rattle.std.specs.Prelude.{slice_get};
ghost use Rattle.sx_earley.specs.Shown.{plain, literal_texts, tokens_of, ShownBelow};
ghost use Rattle.sx_forest.specs.Useful.{IsMet, AreMetBy, levels_at};
ghost use Rattle.sx_term.specs.Limits.{most_tokens};

use crate::wanted::{is_met, lower_all};
use std::alloc::Global;
use sx_earley::Shown;
use sx_grammar::Grammar;
use sx_term::NoMemory;

/// No head is kept from this level on.
const NO_LEVEL: u8 = 101;

/// How often levels are lowered before all heads are kept.
const MOST_ROUNDS: usize = 8;

/// For how many kinds of tokens levels are found. Before any other all heads are kept.
const MOST_ROWS: usize = 64;

/// Rows of levels, and the number of the row of each place, where it has one.
#[derive(Drop)]
pub(crate) struct Levels {
    pub(crate) rows: Vec<Vec<u8>>,
    pub(crate) numbers: Vec<usize>,
}

/// Levels from which heads are kept up to the place, such that what is asked for is. They are
/// lowered so often at most.
fn met_levels(
    alloc: Global,
    grammar: &Grammar,
    shown: &[Shown],
    place: u32,
    rounds: usize,
) -> Result<Vec<u8>, NoMemory>
    requires shown { ShownBelow (length (literal_texts grammar.now)) shown.now }
    ensures { IfOk result (λ v. IsMet (plain grammar.now) (tokens_of grammar.now shown.now) place
        v.items) }
{
    let mut levels = Vec::from_elem(alloc, NO_LEVEL, grammar.parts().sorts.len())?;
    for _ in 0..rounds {
        lower_all(grammar, shown, place, &mut levels);
        if is_met(grammar, shown, place, &levels) {
            return Ok(levels);
        }
    }
    drop(levels);
    Ok(Vec::new(alloc))
}

/// Whether two tokens show the same.
fn is_same(one: Shown, other: Shown) -> bool
    ensures { IsTrue result → one ≡ other }
{
    match (one, other) {
        (Shown::Lit(a), Shown::Lit(b)) => a == b,
        (Shown::Lex(a), Shown::Lex(b)) => a == b,
        (Shown::Kind(a), Shown::Kind(b)) => a == b,
        (Shown::Sort(a), Shown::Sort(b)) => a == b,
        (Shown::Other, Shown::Other) => true,
        _ => false,
    }
}

/// Whether the tokens at two places show the same.
fn is_same_at(shown: &[Shown], place: usize, other: usize) -> bool
    ensures { IsTrue result → slice_get shown.now place ≡ slice_get shown.now other }
{
    match shown.get(place) {
        None => false,
        Some(one) => match shown.get(other) {
            None => false,
            Some(token) => is_same(*one, *token),
        },
    }
}

/// The number that one of the first places has, where what it shows is shown at this place too.
fn number_like(shown: &[Shown], firsts: &[usize], numbers: &[usize], place: usize) -> Option<usize>
    ensures { IfSome result (λ n. (first : ℕ) × (slice_get numbers.now first ≡ Some n) ×
        (slice_get shown.now first ≡ slice_get shown.now place)) }
{
    for first in firsts {
        if is_same_at(shown, *first, place) {
            return numbers.get(*first).copied();
        }
    }
    None
}

impl Levels {
    /// No rows.
    pub(crate) fn new(alloc: Global) -> Self
        ensures { result.numbers.items ≡ [] }
    {
        Levels {
            rows: Vec::new(alloc),
            numbers: Vec::new(alloc),
        }
    }

    /// The levels at a place.
    pub(crate) fn at(&self, place: u32) -> &[u8]
        ensures { result.now ≡ levels_at self.now place }
    {
        match self.numbers.get(place as usize) {
            None => &[],
            Some(number) => match self.rows.get(*number) {
                None => &[],
                Some(row) => row,
            },
        }
    }

    /// Gives the next place its number, where these are the first places of each row.
    pub(crate) fn push(
        &mut self,
        alloc: Global,
        grammar: &Grammar,
        shown: &[Shown],
        firsts: &mut Vec<usize>,
        place: usize,
    ) -> Result<(), NoMemory>
        requires next { length self.old.numbers.items ≡ place }
        requires short { place < most_tokens }
        requires shown { ShownBelow (length (literal_texts grammar.now)) shown.now }
        requires met { AreMetBy (plain grammar.now) (tokens_of grammar.now shown.now)
            self.old.rows.items self.old.numbers.items }
        ensures next { OnOk result (length self.new.numbers.items ≡ place + 1) }
        ensures met { OnOk result (AreMetBy (plain grammar.now) (tokens_of grammar.now shown.now)
            self.new.rows.items self.new.numbers.items) }
    {
        if let Some(number) = number_like(shown, firsts, &self.numbers, place) {
            self.numbers.push(number)?;
            return Ok(());
        }
        let rounds = if self.rows.len() < MOST_ROWS {
            MOST_ROUNDS
        } else {
            0
        };
        let row = met_levels(alloc, grammar, shown, place as u32, rounds)?;
        let number = self.rows.len();
        self.rows.push(row)?;
        self.numbers.push(number)?;
        firsts.push(place)?;
        Ok(())
    }
}
