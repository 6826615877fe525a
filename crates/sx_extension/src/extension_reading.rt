//! Reading an extension file.

ghost use Rattle.std.specs.Prelude.{◌≡◌, ◌≤◌, ℕ, List, length, IfOk, IfErr};
ghost use Rattle.sx_extension.specs.Grounds.{ground, IsGroundBefore};
ghost use Rattle.sx_extension.specs.Stages.{IsPreparedExtension};
ghost use Rattle.sx_extension.specs.ReadTexts.{AreTextsOf};
ghost use Rattle.sx_extension.specs.Checked.{HasCheckedRules, IsExtensionOf, IsReadFrom};
ghost use Rattle.sx_extension.specs.Fitting.{FitsAfter};
ghost use Rattle.sx_extension.specs.States.{IsExtensionIn, IsExtensionTextRefused};
ghost use Rattle.sx_term.specs.Limits.{most_bytes};

use crate::before::Before;
use crate::bodied_rules::with_bodies;
use crate::checked_texts::CheckedTexts;
use crate::extension::ReadExtension;
use crate::extension_checking::check_extension;
use crate::extension_error::ExtensionError;
use crate::prepared::Prepared;
use crate::preparing::prepare;
use crate::read_texts::ReadTexts;
use crate::texts_checking::notation_error;
use crate::texts_reading::read_texts;
use std::alloc::Global;
use sx_language::ReadRules;
use sx_rewrite::ExtensionData;
use sx_term::NoMemory;

/// The texts of the extension with its plain table, where they are as they should be; or the
/// first refusal.
fn read_checked(
    alloc: Global,
    before: &Before,
    prepared: &Prepared,
) -> Result<CheckedTexts, ExtensionError>
    requires before { IsGroundBefore (ground before.now) }
    requires prepared { (bytes : List ℕ) × IsPreparedExtension
        (ground before.now) bytes prepared.now }
    ensures read { IfOk result (λ x. AreTextsOf (ground before.now) prepared.now x.texts) }
    ensures checked { IfOk result (λ x.
        HasCheckedRules (ground before.now) prepared.now x.texts x.plain) }
    ensures refused { (bytes : List ℕ) → IsPreparedExtension
        (ground before.now) bytes prepared.now →
        IfErr result (IsExtensionTextRefused (ground before.now) bytes) }
{
    let texts = match read_texts(alloc, before, prepared) {
        Ok(texts) => texts,
        Err(error) => return Err(notation_error(error)),
    };
    match check_extension(alloc, before, prepared, &texts) {
        Ok(plain) => Ok(CheckedTexts { texts, plain }),
        Err(error) => {
            drop(texts);
            Err(error)
        }
    }
}

/// The extension with the texts and the table.
fn extension_of(
    alloc: Global,
    prepared: Prepared,
    checked: CheckedTexts,
) -> Result<ReadExtension, NoMemory>
    requires { length checked.texts.rules.rules.items ≡ length checked.texts.rules.bodies.items }
    ensures { IfOk result (IsExtensionOf prepared checked) }
{
    let Prepared {
        name,
        grammar,
        rule_grammar,
        metas,
        plains: pairs,
        rules: lines,
    } = prepared;
    drop(lines);
    drop(pairs);
    drop(metas);
    let CheckedTexts { texts, plain } = checked;
    let ReadTexts {
        plains,
        rules: read,
    } = texts;
    drop(plains);
    let ReadRules {
        rules,
        bodies,
        names,
    } = read;
    match with_bodies(alloc, rules, bodies) {
        Ok(rules) => Ok(ReadExtension {
            grammar,
            rule_grammar,
            extension: ExtensionData { name, rules, plain },
            names,
        }),
        Err(error) => {
            drop(names);
            drop(plain);
            drop(rule_grammar);
            drop(grammar);
            drop(name);
            Err(error)
        }
    }
}

/// The extension that is prepared, or the first refusal of its texts.
fn read_prepared(
    alloc: Global,
    before: &Before,
    prepared: Prepared,
) -> Result<ReadExtension, ExtensionError>
    requires before { IsGroundBefore (ground before.now) }
    requires prepared { (bytes : List ℕ) × IsPreparedExtension (ground before.now) bytes prepared }
    ensures read { (bytes : List ℕ) → IsPreparedExtension (ground before.now) bytes prepared →
        IfOk result (IsReadFrom (ground before.now) bytes) }
    ensures refused { (bytes : List ℕ) → IsPreparedExtension (ground before.now) bytes prepared →
        IfErr result (IsExtensionTextRefused (ground before.now) bytes) }
{
    match read_checked(alloc, before, &prepared) {
        Ok(checked) => match extension_of(alloc, prepared, checked) {
            Ok(extension) => Ok(extension),
            Err(_) => Err(ExtensionError::Memory),
        },
        Err(error) => {
            drop(prepared);
            Err(error)
        }
    }
}

/// The extension that the text states, or why it states none: the refusals of its lines, of its
/// grammars, of the first bad line of its plain bodies and its rules, of its rule set, of its plain
/// table, and of the bodies of its rules, in this order. What is read fits what it was read after:
/// its rules are well sorted, moded and disciplined, its bodies have syntax before it, and its
/// plain table has a body for each plain production.
pub fn read_extension(
    alloc: Global,
    before: &Before,
    bytes: &[u8],
) -> Result<ReadExtension, ExtensionError>
    requires before { IsGroundBefore (ground before.now) }
    requires short { length bytes.now ≤ most_bytes }
    ensures stated { IfOk result (IsExtensionIn (ground before.now) bytes.now) }
    ensures fits { IfOk result (FitsAfter (ground before.now)) }
    ensures refused { IfErr result (IsExtensionTextRefused (ground before.now) bytes.now) }
{
    match prepare(alloc, before, bytes) {
        Ok(prepared) => read_prepared(alloc, before, prepared),
        Err(error) => Err(notation_error(error)),
    }
}
