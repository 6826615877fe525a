//! One reading of a span.

ghost use Rattle.std.specs.Prelude.{◌≡◌, ◌≤◌, ◌<◌, ℕ, suc, [], length, IsTrue, IsFalse, OnOk, IfOk};
ghost use Rattle.sx_term.specs.declared.lex_kind.LexKind.{LexKind};
ghost use Rattle.sx_grammar.specs.Grammar.{lexical};
ghost use Rattle.sx_grammar.specs.Reading.{Readings, ReadsAll, branch};
ghost use Rattle.sx_grammar.specs.Tables.{GrammarData};
ghost use Rattle.sx_grammar.specs.Tally.{IsLeafAt};
ghost use Rattle.sx_earley.specs.Shown.{tokens_of};
ghost use Rattle.sx_grammar.specs.Items.{ReadsToken, Span};
ghost use Rattle.sx_forest.specs.Readings.{plain_reading, plain_readings};
ghost use Rattle.sx_forest.specs.Forests.{grammar_in, tokens_in, lists_in, symbols_of, end_of};
ghost use Rattle.sx_forest.specs.Forests.{followed, IsBy, IsForest, IsShallowEntry, IsOpened};
ghost use Rattle.sx_forest.specs.Forests.{IsItemStep, IsReadTo, HasKids, IsReadingMade};

use crate::entry::{Entry, Maker};
use crate::forest::Forest;
use crate::opened::{Opened, open};
use crate::reading::Reading;
use crate::span_rows::symbol_count;
use crate::standing::Standing;
use crate::step::Step;
use crate::stepping::step_at;
use std::alloc::Global;
use sx_earley::{Shown, symbol_of};
use sx_grammar::{Head, NumberedSymbol};
use sx_term::NoMemory;

/// A node.
fn node(label: u32, kids: Vec<Reading>, from: u32, to: u32) -> Reading
    ensures { plain_reading result ≡ branch label (plain_readings kids.items) from to }
{
    Reading::Node {
        label,
        kids,
        from,
        to,
    }
}

/// The reading by the head, with these kids. A bracket pair has one.
pub(crate) fn wrap(
    alloc: Global,
    head: Head,
    kids: Vec<Reading>,
    from: u32,
    to: u32,
) -> Result<Reading, NoMemory>
    requires { HasKids head (plain_readings kids.items) }
    ensures { IfOk result (λ r. IsReadingMade head (plain_readings kids.items) from to
        (plain_reading r)) }
{
    match head {
        Head::Labelled(label) => Ok(node(label, kids, from, to)),
        Head::Bracketed(_) => {
            let mut kids = kids;
            match kids.pop() {
                Some(inner) => Ok(Reading::Bracket {
                    inner: Box::new(alloc, inner)?,
                    from,
                    to,
                }),
                None => unreachable!(),
            }
        }
    }
}

/// The reading of the token at the place, a lexeme or a metavariable.
fn token_reading(shown: &[Shown], place: u32) -> Reading
    ensures { (d : GrammarData) (kind : LexKind) →
        ReadsToken (tokens_of d shown.now) (lexical kind) place →
        IsLeafAt (tokens_of d shown.now) kind place (plain_reading result) }
{
    match shown.get(place as usize) {
        Some(Shown::Kind(_)) => Reading::Var { token: place },
        _ => Reading::Lex { token: place },
    }
}

/// Adds the kids of a span from the place, where none are there and the one symbol of the head is a
/// token; returns whether it is such a head.
fn read_alone(
    forest: Forest,
    head: Head,
    from: u32,
    kids: &mut Vec<Reading>,
) -> Result<bool, NoMemory>
    requires none { kids.old.items ≡ [] }
    ensures yes { IfOk result (λ is. IsTrue is → (to : ℕ) → Span (grammar_in forest.entry)
        (tokens_in forest.entry) forest.entry.start head from to →
        ReadsAll (grammar_in forest.entry) (tokens_in forest.entry)
        (symbols_of (grammar_in forest.entry) head) from to (plain_readings kids.new.items)) }
    ensures no { IfOk result (λ is. IsFalse is → kids.new.items ≡ []) }
{
    if symbol_count(forest.grammar, head) != 1 {
        return Ok(false);
    }
    match symbol_of(forest.grammar, head, 0) {
        Some(NumberedSymbol::Lit(_)) => Ok(true),
        Some(NumberedSymbol::Lex(_)) => {
            kids.push(token_reading(forest.shown, from))?;
            Ok(true)
        }
        _ => Ok(false),
    }
}

/// A reading by the entry from the place.
#[cycle(build)]
pub(crate) fn build(
    alloc: Global,
    forest: Forest,
    entry: Entry,
    from: u32,
) -> Result<Reading, NoMemory>
    requires forest { IsForest forest }
    requires entry { IsShallowEntry (grammar_in forest) (tokens_in forest) forest.start from entry }
    ensures { IfOk result (λ r. IsBy (grammar_in forest.entry)
        (tokens_in forest.entry) entry.maker from entry.to (plain_reading r)) }
{
    match entry.maker {
        Maker::Variable(_) => Ok(Reading::Var { token: from }),
        Maker::By(head) => {
            let mut kids = Vec::new(alloc);
            if read_alone(forest, head, from, &mut kids)? {
                return wrap(alloc, head, kids, from, entry.to);
            }
            let opened = open(alloc, forest, entry, head, from)?;
            extend(alloc, forest, &opened, 0, from, &mut kids)?;
            wrap(alloc, head, kids, from, entry.to)
        }
    }
}

/// Adds the kids of the symbols from the dot on, where those before it are read up to the place.
#[cycle(build)]
pub(crate) fn extend(
    alloc: Global,
    forest: Forest,
    opened: &Opened,
    dot: usize,
    place: u32,
    kids: &mut Vec<Reading>,
) -> Result<(), NoMemory>
    requires forest { IsForest forest }
    requires opened { IsOpened (grammar_in forest) (tokens_in forest) forest.start
        (lists_in forest) opened.now }
    requires read { IsReadTo (grammar_in forest)
        (tokens_in forest) forest.start opened.now dot place (plain_readings kids.old.items) }
    requires within { dot ≤ length (symbols_of (grammar_in forest) opened.now.head) }
    ensures read { OnOk result (ReadsAll (grammar_in forest.entry) (tokens_in forest.entry)
        (symbols_of (grammar_in forest.entry) opened.now.head) opened.now.from opened.now.to
        (plain_readings kids.new.items)) }
    ensures behind { OnOk result ((more : Readings) ×
        (plain_readings kids.new.items ≡ followed (plain_readings kids.old.items) more)) }
{
    let mut here = place;
    for next in dot..symbol_count(forest.grammar, opened.head) {
        let step = step_at(forest, opened, next, here);
        let at = Standing {
            opened,
            dot: next,
            place: here,
        };
        go_over(alloc, forest, at, step, kids)?;
        here = step.end(here);
    }
    Ok(())
}

/// Adds the kid over which the step at the dot goes, if it goes over a kid.
#[cycle(build)]
pub(crate) fn go_over(
    alloc: Global,
    forest: Forest,
    here: Standing,
    step: Step,
    kids: &mut Vec<Reading>,
) -> Result<(), NoMemory>
    requires forest { IsForest forest }
    requires opened { IsOpened (grammar_in forest) (tokens_in forest) forest.start
        (lists_in forest) here.opened.now }
    requires read { IsReadTo (grammar_in forest) (tokens_in forest) forest.start here.opened.now
        here.dot here.place (plain_readings kids.old.items) }
    requires step { IsItemStep (grammar_in forest) (tokens_in forest) forest.start
        (lists_in forest) here.opened.now here.dot here.place step }
    ensures read { OnOk result (IsReadTo (grammar_in forest.entry)
        (tokens_in forest.entry) forest.entry.start here.entry.opened.now (suc here.entry.dot)
        (end_of step here.entry.place) (plain_readings kids.new.items)) }
    ensures behind { OnOk result ((more : Readings) ×
        (plain_readings kids.new.items ≡ followed (plain_readings kids.old.items) more)) }
{
    match step {
        Step::Literal => Ok(()),
        Step::Token => {
            kids.push(token_reading(forest.shown, here.place))?;
            Ok(())
        }
        Step::Part(_, entry) => {
            let kid = build(alloc, forest, entry, here.place)?;
            kids.push(kid)?;
            Ok(())
        }
    }
}
