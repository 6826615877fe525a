//! The plain table of an extension that is read.

ghost use Rattle.std.specs.Prelude.{◌≡◌, ◌<◌, ◌^◌, ℕ, length, map, IfOk, IfErr, Ok};
ghost use Rattle.std.specs.List.{AllByRecursion};
ghost use Rattle.sx_term.specs.Shapes.{shapes};
ghost use Rattle.sx_grammar.specs.Told.{shapes_of};
ghost use Rattle.sx_plain.specs.Tables.{Begins, Desugars};
ghost use Rattle.sx_plain.specs.Views.{table_of};
ghost use Rattle.sx_outline.specs.Stages.{plain_data};
ghost use Rattle.sx_extension.specs.PlainBodies.{body_data, IsBodyOf};
ghost use Rattle.sx_extension.specs.PlainTables.{IsTableMade};
ghost use Rattle.sx_extension.specs.Grounds.{ground, IsGroundBefore};
ghost use Rattle.sx_extension.specs.TableRefusals.{HaveParts};
ghost use Rattle.sx_extension.specs.Stages.{IsNoTable};

use crate::before::Before;
use crate::extension_error::ExtensionError;
use crate::layers::Layers;
use crate::plain_body::PlainBody;
use crate::plain_table::plain_table;
use crate::prepared::Prepared;
use crate::table_naming::table_refusal;
use std::alloc::Global;
use sx_plain::PlainTable;
use sx_term::Shapes;

/// The plain table with the plain bodies of an extension after those before it, or the first reason
/// why there is none, by the labels of productions and the names of parts.
pub(crate) fn make_table(
    alloc: Global,
    before: &Before,
    all: &Shapes,
    prepared: &Prepared,
    plains: &[PlainBody],
) -> Result<PlainTable, ExtensionError>
    requires before { IsGroundBefore (ground before.now) }
    requires all { shapes all.now ≡ shapes_of prepared.now.grammar.parts }
    requires few { length (shapes all.now) < 2 ^ 32 }
    requires begins { Begins (ground before.now).shapes (shapes all.now) }
    requires bodies { AllByRecursion (IsBodyOf (shapes all.now)
        (length (ground before.now).shapes)) (map body_data plains.now) }
    requires parts { HaveParts (map plain_data prepared.now.plains.items)
        (map body_data plains.now) }
    ensures made { IfOk result (λ t. IsTableMade (ground before.now).base (shapes all.now)
        (length (ground before.now).shapes) (ground before.now).table
        (map body_data plains.now) (Ok t)) }
    ensures desugars { IfOk result (λ t.
        Desugars (shapes_of (ground before.now).language) (shapes all.now) (table_of t)) }
    ensures keeps { IfOk result (λ t. (label : ℕ) →
        label < length (ground before.now).shapes →
        (ground before.now).table label ≡ table_of t label) }
    ensures refused { IfErr result (IsNoTable (ground before.now) prepared.now.grammar.parts
        (map plain_data prepared.now.plains.items) (map body_data plains.now)) }
{
    let base = before.language.grammar.shapes(alloc)?;
    let layers = Layers {
        base: &base,
        before: before.rules.shapes(),
        all,
    };
    let made = plain_table(alloc, &layers, before.plain, plains);
    drop(base);
    match made {
        Ok(table) => Ok(table),
        Err(error) => Err(table_refusal(alloc, &prepared.grammar, &prepared.plains, error)),
    }
}
