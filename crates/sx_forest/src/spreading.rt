//! The places to which the symbols of a span can lead.

ghost use Rattle.std.specs.Prelude.{◌≡◌, ◌≤◌, ℕ, List, Some, IfOk, slice_get, option_map};
ghost use Rattle.sx_grammar.specs.Grammar.{Token};
ghost use Rattle.sx_grammar.specs.Numbered.{symbol};
ghost use Rattle.sx_earley.specs.Shown.{plain, literal_texts};
ghost use Rattle.sx_forest.specs.Rows.{FitsPart, IsIn, Spreads, AreStretches, entries_at};
ghost use Rattle.sx_forest.specs.Rows.{stretch_at};
ghost use Rattle.sx_forest.specs.Reached.{HasReach};
ghost use Rattle.sx_term.specs.Limits.{most_tokens};

use crate::basis::Basis;
use crate::entries::Entries;
use crate::entry::{Entry, Maker};
use crate::part_ways::fits;
use crate::reach::Reach;
use crate::stretch::{NOWHERE, Stretch, after_token, clipped, joined};
use std::alloc::Global;
use sx_earley::symbol_of;
use sx_grammar::{Grammar, Head, NumberedSymbol};
use sx_term::NoMemory;

/// The stretch, with the places that fitting makers reach.
pub(crate) fn over_reaches(
    grammar: &Grammar,
    reaches: &[Reach],
    sort: u32,
    least: u8,
    stretch: Stretch,
) -> Stretch
    ensures kept { (p : ℕ) → IsIn stretch p → IsIn result p }
    ensures over { (m : Maker) (p : ℕ) → HasReach reaches.now m p →
        FitsPart (plain grammar.now) m sort least → IsIn result p }
{
    let mut grown = stretch;
    for reach in reaches {
        if fits(grammar, reach.maker, sort, least) {
            grown = joined(grown, reach.places);
        }
    }
    grown
}

/// A stretch with the ends of the parts from the places of a stretch.
fn over_part(grammar: &Grammar, table: &Entries, sort: u32, least: u8, stretch: Stretch) -> Stretch
    ensures { (place i : ℕ) (e : Entry) → IsIn stretch place →
        slice_get (entries_at table.now.lists.items place) i ≡ Some e →
        FitsPart (plain grammar.now) e.maker sort least → IsIn result e.to }
{
    let mut grown = NOWHERE;
    for place in stretch.first..stretch.end {
        let reaches = table.ends.at(place as usize);
        grown = over_reaches(grammar, reaches, sort, least, grown);
    }
    grown
}

/// A stretch with the places, up to the end, to which the symbol leads from those of a stretch.
pub(crate) fn spread(
    grammar: &Grammar,
    table: &Entries,
    expected: Option<NumberedSymbol>,
    stretch: Stretch,
    to: u32,
) -> Stretch
    requires short { to ≤ most_tokens }
    ensures { (tokens : List Token) → Spreads (plain grammar.now) tokens table.now.lists.items
        (option_map (symbol (literal_texts grammar.now)) expected) to stretch result }
{
    match expected {
        None => NOWHERE,
        Some(NumberedSymbol::Part { sort, least }) => {
            clipped(over_part(grammar, table, sort, least, stretch), 0, to)
        }
        Some(NumberedSymbol::Lit(_)) => after_token(stretch, to),
        Some(NumberedSymbol::Lex(_)) => after_token(stretch, to),
    }
}

/// The stretch at the dot.
pub(crate) fn stretch_of(stretches: &[Stretch], dot: usize) -> Stretch
    ensures { result ≡ stretch_at stretches.now dot }
{
    match stretches.get(dot) {
        None => Stretch { first: 0, end: 0 },
        Some(stretch) => *stretch,
    }
}

/// The stretches of places at which the symbols of the head can begin, from the beginning of a span
/// on.
pub(crate) fn stretches(
    alloc: Global,
    basis: Basis,
    head: Head,
    count: usize,
    from: u32,
    to: u32,
) -> Result<Vec<Stretch>, NoMemory>
    requires short { to ≤ most_tokens }
    requires along { from ≤ to }
    ensures { IfOk result (λ v. (tokens : List Token) → AreStretches
        (plain basis.entry.grammar.now) tokens basis.entry.table.now.lists.items head count from to
        v.items) }
{
    let mut all = Vec::new(alloc);
    all.push(Stretch {
        first: from,
        end: from + 1,
    })?;
    for dot in 1..count {
        let before = stretch_of(&all, dot - 1);
        let expected = symbol_of(basis.grammar, head, dot - 1);
        all.push(spread(basis.grammar, basis.table, expected, before, to))?;
    }
    Ok(all)
}
