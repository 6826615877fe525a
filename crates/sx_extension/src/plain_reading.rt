//! Reading the plain bodies of an extension.

ghost use Rattle.std.specs.Prelude.{◌≡◌, ◌-◌, ◌<◌, ◌^◌, length, map, IfOk, IfErr};
ghost use Rattle.std.specs.List.{AllByRecursion};
ghost use Rattle.sx_grammar.specs.Parts.{labels};
ghost use Rattle.sx_outline.specs.Stages.{plain_data};
ghost use Rattle.sx_language.specs.RuleTexts.{OrMemory};
ghost use Rattle.sx_extension.specs.PlainBodies.{body_data};
ghost use Rattle.sx_extension.specs.Readings.{IsPlainRead, ArePlainsRead, IsBadPlain};
ghost use Rattle.sx_extension.specs.Readings.{IsFirstBadPlain};
ghost use Rattle.sx_extension.specs.Stages.{CanReadPlain};

use crate::numbered_names::{label_names, number_in, part_names};
use crate::plain_body::PlainBody;
use std::alloc::Global;
use sx_grammar::Grammar;
use sx_language::read_plain_body;
use sx_notation::{LineReader, NotationError};
use sx_outline::PlainLines;
use sx_term::Vars;

/// The plain body that the pair states.
fn read_plain(
    alloc: Global,
    grammar: &Grammar,
    tables: &LineReader,
    known: &mut Vars,
    lines: &PlainLines,
) -> Result<PlainBody, NotationError>
    requires known { known.old ≡ labels grammar.now.parts }
    requires few { length known.old < 2 ^ 32 - 1 }
    requires can { CanReadPlain grammar.now.parts tables.now (plain_data lines.now) }
    ensures read { IfOk result (λ b. IsPlainRead grammar.now.parts tables.now
        (plain_data lines.now) (body_data b)) }
    ensures refused { IfErr result (OrMemory (IsBadPlain grammar.now.parts tables.now
        (plain_data lines.now))) }
    ensures same { IfOk result (λ _. known.new ≡ known.old) }
{
    let label = number_in(alloc, known, &lines.label)?;
    let parts = part_names(alloc, &lines.names)?;
    let sort = grammar.sort_of(label);
    match read_plain_body(alloc, tables, sort, &lines.body, &parts) {
        Ok(term) => {
            drop(parts);
            Ok(PlainBody {
                label,
                parts: lines.names.len() as u32,
                term,
            })
        }
        Err(error) => {
            drop(parts);
            Err(error)
        }
    }
}

/// The plain bodies that the pairs state in order, by the labels with their numbers.
fn read_each(
    alloc: Global,
    grammar: &Grammar,
    tables: &LineReader,
    known: &mut Vars,
    plains: &[PlainLines],
) -> Result<Vec<PlainBody>, NotationError>
    requires known { known.old ≡ labels grammar.now.parts }
    requires few { length known.old < 2 ^ 32 - 1 }
    requires can { AllByRecursion (CanReadPlain grammar.now.parts tables.now)
        (map plain_data plains.now) }
    ensures read { IfOk result (λ bs. ArePlainsRead grammar.now.parts tables.now
        (map plain_data plains.now) (map body_data bs.items)) }
    ensures refused { IfErr result (OrMemory (IsFirstBadPlain grammar.now.parts
        tables.now (map plain_data plains.now))) }
{
    let mut bodies = Vec::with_capacity(alloc, plains.len())?;
    for i in 0..plains.len() {
        let lines = &plains[i];
        match read_plain(alloc, grammar, tables, known, lines) {
            Ok(body) => bodies.push(body)?,
            Err(error) => {
                drop(bodies);
                return Err(error);
            }
        }
    }
    Ok(bodies)
}

/// The plain bodies that the pairs state in order, or why the line of the first that is not read is
/// refused.
pub(crate) fn read_plains(
    alloc: Global,
    grammar: &Grammar,
    tables: &LineReader,
    plains: &[PlainLines],
) -> Result<Vec<PlainBody>, NotationError>
    requires few { length grammar.now.parts.productions < 2 ^ 32 - 1 }
    requires can { AllByRecursion (CanReadPlain grammar.now.parts tables.now)
        (map plain_data plains.now) }
    ensures read { IfOk result (λ bs. ArePlainsRead grammar.now.parts tables.now
        (map plain_data plains.now) (map body_data bs.items)) }
    ensures refused { IfErr result (OrMemory (IsFirstBadPlain grammar.now.parts
        tables.now (map plain_data plains.now))) }
{
    grammar.facts();
    let mut known = label_names(alloc, &grammar.parts().productions)?;
    let read = read_each(alloc, grammar, tables, &mut known, plains);
    drop(known);
    read
}
