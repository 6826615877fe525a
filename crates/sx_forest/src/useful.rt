//! The spans that can be of use.

ghost use Rattle.std.specs.Prelude.{◌≤◌, IfOk, length};
ghost use Rattle.sx_grammar.specs.Tally.{EachOnce};
ghost use Rattle.sx_earley.specs.Shown.{plain, literal_texts, tokens_of, ShownBelow};
ghost use Rattle.sx_earley.specs.Completed.{IsChart};
ghost use Rattle.sx_forest.specs.Useful.{AreMetBy, AreUseful};
ghost use Rattle.sx_term.specs.Limits.{most_tokens};

use crate::in_order::head_of;
use crate::levels::Levels;
use crate::wanted::keeps;
use std::alloc::Global;
use sx_earley::{Shown, Span};
use sx_grammar::Grammar;
use sx_term::NoMemory;

/// Levels at each place such that what is asked for is kept, or at none where there are few spans.
fn all_levels(
    alloc: Global,
    grammar: &Grammar,
    shown: &[Shown],
    spans: usize,
) -> Result<Levels, NoMemory>
    requires short { length shown.now ≤ most_tokens }
    requires shown { ShownBelow (length (literal_texts grammar.now)) shown.now }
    ensures met { IfOk result (λ l. AreMetBy (plain grammar.now)
        (tokens_of grammar.now shown.now) l.rows.items l.numbers.items) }
    ensures short { IfOk result (λ l. length l.numbers.items ≤ length shown.now) }
{
    let mut levels = Levels::new(alloc);
    if spans / 16 < grammar.productions().len() {
        return Ok(levels);
    }
    let mut firsts = Vec::new(alloc);
    for place in 0..shown.len() {
        levels.push(alloc, grammar, shown, &mut firsts, place)?;
    }
    Ok(levels)
}

/// The spans that can be of use, where all are those that the items complete.
pub(crate) fn useful_spans(
    alloc: Global,
    grammar: &Grammar,
    _start: u32,
    shown: &[Shown],
    spans: &[Span],
) -> Result<Vec<Span>, NoMemory>
    requires short { length shown.now ≤ most_tokens }
    requires shown { ShownBelow (length (literal_texts grammar.now)) shown.now }
    requires chart { IsChart (plain grammar.now)
        (tokens_of grammar.now shown.now) _start spans.now }
    requires once { EachOnce spans.now }
    ensures are { IfOk result (λ v. AreUseful (plain grammar.now)
        (tokens_of grammar.now shown.now) _start v.items) }
    ensures once { IfOk result (λ v. EachOnce v.items) }
{
    let levels = all_levels(alloc, grammar, shown, spans.len())?;
    let mut useful = Vec::new(alloc);
    for span in spans {
        if keeps(grammar, levels.at(span.to), head_of(span.of)) {
            useful.push(*span)?;
        }
    }
    Ok(useful)
}
