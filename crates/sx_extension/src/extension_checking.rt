//! Checking an extension whose texts are read.

ghost use Rattle.std.specs.Prelude.{ℕ, List, IfOk, IfErr};
ghost use Rattle.sx_extension.specs.Grounds.{ground, IsGroundBefore};
ghost use Rattle.sx_extension.specs.Stages.{IsPreparedExtension};
ghost use Rattle.sx_extension.specs.ReadTexts.{AreTextsOf};
ghost use Rattle.sx_extension.specs.Checks.{HaveBodies, HaveBodyDefect};
ghost use Rattle.sx_extension.specs.Checked.{HasCheckedRules};
ghost use Rattle.sx_extension.specs.States.{IsExtensionTextRefused};

use crate::before::Before;
use crate::bodies_of_rules::check_bodies;
use crate::extension_error::ExtensionError;
use crate::prepared::Prepared;
use crate::read_texts::ReadTexts;
use crate::texts_checking::check_texts;
use std::alloc::Global;
use sx_plain::PlainTable;

/// Whether each rule has its body as it should, or the refusal of the first that has not.
fn check_own_bodies(
    alloc: Global,
    before: &Before,
    prepared: &Prepared,
    texts: &ReadTexts,
) -> Result<(), ExtensionError>
    requires { AreTextsOf (ground before.now) prepared.now texts.now }
    ensures good { IfOk result (λ _. HaveBodies (ground before.now) prepared.now texts.now) }
    ensures refused { IfErr result (HaveBodyDefect (ground before.now) prepared.now texts.now) }
{
    let all = prepared.grammar.shapes(alloc)?;
    let checked = check_bodies(alloc, before, &all, prepared, texts);
    drop(all);
    checked
}

/// The plain table of the texts, where the rules before the extension, and then its own, are a rule
/// set, and each rule has its body as it should. The first refusal that holds is answered: that of
/// the rule set, of the plain table, or of a body.
pub(crate) fn check_extension(
    alloc: Global,
    before: &Before,
    prepared: &Prepared,
    texts: &ReadTexts,
) -> Result<PlainTable, ExtensionError>
    requires before { IsGroundBefore (ground before.now) }
    requires prepared { (bytes : List ℕ) × IsPreparedExtension
        (ground before.now) bytes prepared.now }
    requires texts { AreTextsOf (ground before.now) prepared.now texts.now }
    ensures checked { IfOk result (HasCheckedRules (ground before.now) prepared.now texts.now) }
    ensures refused { (bytes : List ℕ) → IsPreparedExtension
        (ground before.now) bytes prepared.now →
        IfErr result (IsExtensionTextRefused (ground before.now) bytes) }
{
    let plain = match check_texts(alloc, before, prepared, texts) {
        Ok(plain) => plain,
        Err(error) => return Err(error),
    };
    match check_own_bodies(alloc, before, prepared, texts) {
        Ok(()) => Ok(plain),
        Err(error) => {
            drop(plain);
            Err(error)
        }
    }
}
