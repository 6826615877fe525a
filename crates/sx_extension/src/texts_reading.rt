//! Reading the texts of an extension.

ghost use Rattle.std.specs.Prelude.{map, option_map, IfOk, IfErr};
ghost use Rattle.sx_term.specs.Term.{tree};
ghost use Rattle.sx_rules.specs.Views as view;
ghost use Rattle.sx_outline.specs.Stages.{plain_data, rule_data};
ghost use Rattle.sx_language.specs.RuleTexts.{AreRules, IsFirstBadRule, OrMemory};
ghost use Rattle.sx_extension.specs.Grounds.{ground};
ghost use Rattle.sx_extension.specs.PlainBodies.{body_data};
ghost use Rattle.sx_extension.specs.Readings.{tables, ArePlainsRead, IsFirstBadPlain};
ghost use Rattle.sx_extension.specs.Stages.{reader_of, CanReadTexts};
ghost use Rattle.sx_extension.specs.ReadTexts.{AreTextsOf, AreBadTextsOf};

use crate::before::Before;
use crate::plain_body::PlainBody;
use crate::plain_reading::read_plains;
use crate::prepared::Prepared;
use crate::read_texts::ReadTexts;
use std::alloc::Global;
use sx_language::{ReadRules, RuleReader, read_rules};
use sx_notation::{LineReader, NotationError};

/// The plain bodies that the pairs state.
fn read_bodies(
    alloc: Global,
    before: &Before,
    prepared: &Prepared,
) -> Result<Vec<PlainBody>, NotationError>
    requires { CanReadTexts (ground before.now) prepared.now }
    ensures read { IfOk result (λ bs. ArePlainsRead prepared.now.grammar.parts
        (tables (reader_of (ground before.now) prepared.now))
        (map plain_data prepared.now.plains.items) (map body_data bs.items)) }
    ensures refused { IfErr result (OrMemory (IsFirstBadPlain prepared.now.grammar.parts
        (tables (reader_of (ground before.now) prepared.now))
        (map plain_data prepared.now.plains.items))) }
{
    let by = LineReader::new(alloc, &prepared.rule_grammar, &prepared.metas)?;
    let read = read_plains(alloc, &prepared.grammar, &by, &prepared.plains);
    drop(by);
    read
}

/// The rules that the lines state.
fn read_own_rules(
    alloc: Global,
    before: &Before,
    prepared: &Prepared,
) -> Result<ReadRules, NotationError>
    requires { CanReadTexts (ground before.now) prepared.now }
    ensures read { IfOk result (λ x. AreRules (reader_of (ground before.now) prepared.now)
        (map rule_data prepared.now.rules.items) x.names.items (map view.named x.rules.items)
        (map (option_map tree) x.bodies.items)) }
    ensures refused { IfErr result (OrMemory (IsFirstBadRule
        (reader_of (ground before.now) prepared.now) (map rule_data prepared.now.rules.items))) }
{
    let by = RuleReader {
        grammar: &prepared.rule_grammar,
        metas: &prepared.metas,
        forms: before.language.rules.forms(),
    };
    read_rules(alloc, &by, &prepared.rules)
}

/// The plain bodies that the pairs state, and then the rules that the lines after them state; or
/// why the first bad line of these is refused.
pub(crate) fn read_texts(
    alloc: Global,
    before: &Before,
    prepared: &Prepared,
) -> Result<ReadTexts, NotationError>
    requires { CanReadTexts (ground before.now) prepared.now }
    ensures read { IfOk result (AreTextsOf (ground before.now) prepared.now) }
    ensures refused { IfErr result (OrMemory (AreBadTextsOf (ground before.now) prepared.now)) }
{
    let plains = match read_bodies(alloc, before, prepared) {
        Ok(plains) => plains,
        Err(error) => return Err(error),
    };
    match read_own_rules(alloc, before, prepared) {
        Ok(rules) => Ok(ReadTexts { plains, rules }),
        Err(error) => {
            drop(plains);
            Err(error)
        }
    }
}
