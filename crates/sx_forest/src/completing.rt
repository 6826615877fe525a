//! Whether there is any reading of all tokens.

ghost use Rattle.std.specs.Prelude.{◌≡◌, ◌↔◌, IsTrue, Contains, length};
ghost use Rattle.sx_grammar.specs.Grammar.{is_variable, of_sort};
ghost use Rattle.sx_grammar.specs.Reading as plain;
ghost use Rattle.sx_grammar.specs.Reading.{Marked, ReadsWhole};
ghost use Rattle.sx_grammar.specs.Tables.{GrammarData};
ghost use Rattle.sx_earley.specs.Shown.{plain, tokens_of};
ghost use Rattle.sx_earley.specs.Completed.{IsChart};
ghost use Rattle.sx_earley.specs.declared.span.Span.{Span};
ghost use Rattle.sx_forest.specs.Verdict.{IsWholeSpan};

use crate::first_entries::variable_at;
use crate::in_order::head_of;
use sx_earley::{Shown, Span, makes};
use sx_grammar::Grammar;

/// Whether the span is of all of so many tokens, and its head makes the sort.
fn is_whole(grammar: &Grammar, start: u32, count: usize, span: Span) -> bool
    ensures { IsTrue result ↔ IsWholeSpan (plain grammar.now) start count span }
{
    span.from == 0 && span.to as usize == count && makes(grammar, head_of(span.of), start, 0)
}

/// Whether one of the spans is whole.
fn has_whole(grammar: &Grammar, start: u32, count: usize, spans: &[Span]) -> bool
    ensures { IsTrue result ↔ ((s : Span) × Contains spans.now s ×
        IsWholeSpan (plain grammar.now) start count s) }
{
    for i in 0..spans.len() {
        if is_whole(grammar, start, count, spans[i]) {
            return true;
        }
    }
    false
}

/// Whether what is shown is one metavariable of the sort.
fn is_variable(start: u32, shown: &[Shown]) -> bool
    ensures { (d : GrammarData) → IsTrue result
        ↔ ((length shown.now ≡ 1) × Marked (tokens_of d shown.now) 0
        (is_variable (of_sort start))) }
{
    match variable_at(shown, 0) {
        Some(sort) => shown.len() == 1 && sort == start,
        None => false,
    }
}

/// Whether all that is shown has a reading as the sort, where the spans are those that the items
/// complete.
pub(crate) fn has_reading(grammar: &Grammar, start: u32, shown: &[Shown], spans: &[Span]) -> bool
    requires { IsChart (plain grammar.now) (tokens_of grammar.now shown.now) start spans.now }
    ensures { IsTrue result ↔ ((r : plain.Reading) ×
        ReadsWhole (plain grammar.now) (tokens_of grammar.now shown.now) start r) }
{
    grammar.facts();
    is_variable(start, shown) || has_whole(grammar, start, shown.len(), spans)
}
