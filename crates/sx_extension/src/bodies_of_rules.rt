//! Checking the bodies of the rules of an extension, whose refusals have their names.

ghost use Rattle.std.specs.Prelude.{length, map, IfOk, IfErr};
ghost use Rattle.sx_term.specs.Shapes.{shapes};
ghost use Rattle.sx_outline.specs.Stages.{rule_data};
ghost use Rattle.sx_extension.specs.Bodies.{AreBodied};
ghost use Rattle.sx_extension.specs.BodyRefusals.{IsBodyRefusal, HaveBadBody};
ghost use Rattle.sx_extension.specs.Grounds.{ground};
ghost use Rattle.sx_extension.specs.ReadTexts.{read_texts, AreTextsOf};

use crate::before::Before;
use crate::body_checking::first_defect;
use crate::body_defect::BodyDefect;
use crate::extension_error::ExtensionError;
use crate::own_syntax::OwnSyntax;
use crate::prepared::Prepared;
use crate::read_texts::ReadTexts;
use std::alloc::Global;
use sx_outline::RuleLines;
use sx_term::{Shapes, Text};

/// The refusal of the rule with this name, whose body has the defect.
fn defect_of(rule: Text, defect: BodyDefect) -> ExtensionError
    ensures { IsBodyRefusal rule defect result }
{
    match defect {
        BodyDefect::NoBody => ExtensionError::NoBody(rule),
        BodyDefect::BodySort => ExtensionError::BodySort(rule),
        BodyDefect::BodyExtended => ExtensionError::BodyExtended(rule),
    }
}

/// The refusal of the rule whose body has the defect.
fn body_refusal(alloc: Global, rule: &RuleLines, defect: BodyDefect) -> ExtensionError
    ensures { IsBodyRefusal rule.now.name defect result }
{
    match rule.name.copy(alloc) {
        Ok(name) => defect_of(name, defect),
        Err(_) => ExtensionError::Memory,
    }
}

/// Whether each rule that was read has its body as it should, where these are the constructors with
/// those of the extension; or the refusal of the first that has not.
pub(crate) fn check_bodies(
    alloc: Global,
    before: &Before,
    all: &Shapes,
    prepared: &Prepared,
    texts: &ReadTexts,
) -> Result<(), ExtensionError>
    requires { AreTextsOf (ground before.now) prepared.now texts.now }
    ensures good { IfOk result (λ _. AreBodied (ground before.now).forms (shapes all.now)
        (length (ground before.now).shapes) (map rule_data prepared.now.rules.items)
        (read_texts texts.now).rules (read_texts texts.now).bodies) }
    ensures refused { IfErr result (HaveBadBody (ground before.now).forms (shapes all.now)
        (length (ground before.now).shapes) (map rule_data prepared.now.rules.items)
        (read_texts texts.now).rules (read_texts texts.now).bodies) }
{
    let own = OwnSyntax {
        shapes: all,
        first: before.rules.shapes().cons.len(),
    };
    let forms = before.language.rules.forms();
    match first_defect(forms, &own, &prepared.rules, &texts.rules) {
        None => Ok(()),
        Some((number, defect)) => {
            let rule = &prepared.rules[number];
            Err(body_refusal(alloc, rule, defect))
        }
    }
}
