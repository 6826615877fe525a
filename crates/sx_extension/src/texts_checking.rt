//! Checking the texts of an extension.

ghost use Rattle.std.specs.Prelude.{◌≡◌, ℕ, ◌<◌, List, length, IfOk, IfErr};
ghost use Rattle.sx_term.specs.Shapes.{shapes};
ghost use Rattle.sx_grammar.specs.Told.{shapes_of};
ghost use Rattle.sx_plain.specs.Tables.{Desugars};
ghost use Rattle.sx_plain.specs.Views.{table_of};
ghost use Rattle.sx_extension.specs.Grounds.{ground, IsGroundBefore};
ghost use Rattle.sx_extension.specs.Stages.{IsPreparedExtension};
ghost use Rattle.sx_extension.specs.ReadTexts.{AreTextsOf};
ghost use Rattle.sx_extension.specs.Checks.{IsNotationRefusal, HaveRuleSet, HaveTable};
ghost use Rattle.sx_extension.specs.Checks.{AreUnchecked};

use crate::before::Before;
use crate::extension_error::ExtensionError;
use crate::prepared::Prepared;
use crate::read_texts::ReadTexts;
use crate::rule_set_checking::check_rule_set;
use crate::table_making::make_table;
use std::alloc::Global;
use sx_notation::NotationError;
use sx_plain::PlainTable;
use sx_term::Shapes;

/// The refusal of notation, as that of an extension.
pub(crate) fn notation_error(error: NotationError) -> ExtensionError
    ensures { IsNotationRefusal error result }
{
    match error {
        NotationError::Memory => ExtensionError::Memory,
        error => ExtensionError::Notation(error),
    }
}

/// The plain table of the texts, whose productions have these shapes.
fn check_by(
    alloc: Global,
    before: &Before,
    all: &Shapes,
    prepared: &Prepared,
    texts: &ReadTexts,
) -> Result<PlainTable, ExtensionError>
    requires before { IsGroundBefore (ground before.now) }
    requires all { shapes all.now ≡ shapes_of prepared.now.grammar.parts }
    requires prepared { (bytes : List ℕ) × IsPreparedExtension
        (ground before.now) bytes prepared.now }
    requires texts { AreTextsOf (ground before.now) prepared.now texts.now }
    ensures rules { IfOk result (λ _. HaveRuleSet (ground before.now) prepared.now texts.now) }
    ensures table { IfOk result (HaveTable (ground before.now) prepared.now texts.now) }
    ensures desugars { IfOk result (λ t. Desugars (shapes_of (ground before.now).language)
        (shapes_of prepared.now.grammar.parts) (table_of t)) }
    ensures keeps { IfOk result (λ t. (label : ℕ) →
        label < length (ground before.now).shapes →
        (ground before.now).table label ≡ table_of t label) }
    ensures refused { IfErr result (AreUnchecked (ground before.now) prepared.now texts.now) }
{
    match check_rule_set(alloc, before, all, &prepared.rules, &texts.rules) {
        Ok(()) => make_table(alloc, before, all, prepared, &texts.plains),
        Err(error) => Err(notation_error(error)),
    }
}

/// The plain table of the texts, where the rules before the extension, and then its own, are a rule
/// set. The first refusal that holds is answered: that of the rule set, or else that of the plain
/// table.
pub(crate) fn check_texts(
    alloc: Global,
    before: &Before,
    prepared: &Prepared,
    texts: &ReadTexts,
) -> Result<PlainTable, ExtensionError>
    requires before { IsGroundBefore (ground before.now) }
    requires prepared { (bytes : List ℕ) × IsPreparedExtension
        (ground before.now) bytes prepared.now }
    requires texts { AreTextsOf (ground before.now) prepared.now texts.now }
    ensures rules { IfOk result (λ _. HaveRuleSet (ground before.now) prepared.now texts.now) }
    ensures table { IfOk result (HaveTable (ground before.now) prepared.now texts.now) }
    ensures desugars { IfOk result (λ t. Desugars (shapes_of (ground before.now).language)
        (shapes_of prepared.now.grammar.parts) (table_of t)) }
    ensures keeps { IfOk result (λ t. (label : ℕ) →
        label < length (ground before.now).shapes →
        (ground before.now).table label ≡ table_of t label) }
    ensures refused { IfErr result (AreUnchecked (ground before.now) prepared.now texts.now) }
{
    let all = prepared.grammar.shapes(alloc)?;
    let made = check_by(alloc, before, &all, prepared, texts);
    drop(all);
    made
}
