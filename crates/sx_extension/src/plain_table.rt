//! The plain table of an extension.

ghost use Rattle.std.specs.Prelude.{◌≡◌, ◌<◌, ◌^◌, ◌↔◌, ℕ, IsTrue, IfOk, length, map};
ghost use Rattle.std.specs.Prelude.{MatchResult, MatchOption};
ghost use Rattle.std.specs.List.{AllByRecursion};
ghost use Rattle.sx_term.specs.Shapes.{shapes};
ghost use Rattle.sx_term.specs.Untyped.{IsUntypedSort};
ghost use Rattle.sx_plain.specs.Tables.{Begins, Desugars, HasBodies};
ghost use Rattle.sx_plain.specs.Adds.{IsBodyAdded};
ghost use Rattle.sx_plain.specs.Views.{table_of};
ghost use Rattle.sx_extension.specs.PlainBodies.{body_data, IsBodyOf};
ghost use Rattle.sx_extension.specs.PlainTables.{AddsAll, IsPlainLabel, LacksEntry, HasAll};
ghost use Rattle.sx_extension.specs.PlainTables.{IsFirstWithoutEntry, IsTableRefusal, IsNotAdded};
ghost use Rattle.sx_extension.specs.PlainTables.{IsTableMade};

use crate::layers::Layers;
use crate::plain_body::PlainBody;
use crate::table_error::TableError;
use std::alloc::Global;
use sx_plain::{PlainError, PlainTable};
use sx_term::{Shapes, Sort};

/// Adds the plain body to the table.
fn add_body(
    alloc: Global,
    layers: &Layers,
    table: &mut PlainTable,
    body: &PlainBody,
) -> Result<(), PlainError>
    requires base { table.old.base ≡ length (shapes layers.now.base.now) }
    requires begins { Begins (shapes layers.now.base.now) (shapes layers.now.before.now) }
    requires new { Begins (shapes layers.now.before.now) (shapes layers.now.all.now) }
    requires bodies { HasBodies (shapes layers.now.base.now) (shapes layers.now.all.now)
        (table_of table.old) }
    requires body { IsBodyOf (shapes layers.now.all.now) (length (shapes layers.now.before.now))
        (body_data body.now) }
    ensures answer { IsBodyAdded table.old.base (table_of table.old) (table_of table.new)
        body.now.label body.now.parts (body_data body.now).term result }
    ensures bodies { IfOk result (λ _. HasBodies (shapes layers.now.base.now)
        (shapes layers.now.all.now) (table_of table.new)) }
    ensures base { table.new.base ≡ table.old.base }
{
    table.add(body.label, body.parts, body.term.copy(alloc)?)
}

/// The table with the plain bodies, added in order, or the first that is refused.
fn add_bodies(
    alloc: Global,
    layers: &Layers,
    before: PlainTable,
    bodies: &[PlainBody],
) -> Result<PlainTable, TableError>
    requires base { before.base ≡ length (shapes layers.now.base.now) }
    requires begins { Begins (shapes layers.now.base.now) (shapes layers.now.before.now) }
    requires new { Begins (shapes layers.now.before.now) (shapes layers.now.all.now) }
    requires known { HasBodies (shapes layers.now.base.now) (shapes layers.now.all.now)
        (table_of before) }
    requires bodies { AllByRecursion (IsBodyOf (shapes layers.now.all.now)
        (length (shapes layers.now.before.now))) (map body_data bodies.now) }
    ensures added { MatchResult result
        (λ t. AddsAll before.base (table_of before) (map body_data bodies.now) (table_of t))
        (IsNotAdded before.base (table_of before) (map body_data bodies.now)) }
    ensures bodies { IfOk result (λ t. HasBodies (shapes layers.now.base.now)
        (shapes layers.now.all.now) (table_of t)) }
    ensures base { IfOk result (λ t. t.base ≡ before.base) }
{
    let mut table = before;
    for number in 0..bodies.len() {
        let body = &bodies[number];
        match add_body(alloc, layers, &mut table, body) {
            Ok(()) => {}
            Err(error) => {
                drop(table);
                return Err(refusal(number, error));
            }
        }
    }
    Ok(table)
}

/// The refusal of the body with this number.
fn refusal(number: usize, error: PlainError) -> TableError
    ensures { IsTableRefusal number error result }
{
    match error {
        PlainError::Memory => TableError::Memory,
        error => TableError::Plain(number, error),
    }
}

/// Whether the sort is lexical or plain.
fn is_untyped(sort: Sort) -> bool
    ensures { IsTrue result ↔ IsUntypedSort sort }
{
    match sort {
        Sort::Typed(_) => false,
        _ => true,
    }
}

/// Whether the label is that of a plain constructor.
fn is_plain(all: &Shapes, label: usize) -> bool
    requires { label < length (shapes all.now) }
    ensures { IsTrue result ↔ IsPlainLabel (shapes all.now) label }
{
    is_untyped(all.cons[label].sort)
}

/// Whether the label is that of a plain constructor without an entry.
fn lacks_entry(all: &Shapes, table: &PlainTable, label: usize) -> bool
    requires known { label < length (shapes all.now) }
    requires few { length (shapes all.now) < 2 ^ 32 }
    ensures { IsTrue result ↔ LacksEntry (shapes all.now) (table_of table.now) label }
{
    is_plain(all, label) && table.flat(label as u32).is_none()
}

/// The first plain constructor from this number on that has no entry, or None where each has one.
fn first_without(all: &Shapes, first: usize, table: &PlainTable) -> Option<u32>
    requires { length (shapes all.now) < 2 ^ 32 }
    ensures { MatchOption result (HasAll (shapes all.now) first (table_of table.now))
        (IsFirstWithoutEntry (shapes all.now) first (table_of table.now)) }
{
    for label in first..all.cons.len() {
        if lacks_entry(all, table, label) {
            return Some(label as u32);
        }
    }
    None
}

/// The plain table with the plain bodies of an extension after those before it. It is refused at
/// the first body that is no entry, and else at the first new plain constructor without a body.
pub(crate) fn plain_table(
    alloc: Global,
    layers: &Layers,
    before: &PlainTable,
    bodies: &[PlainBody],
) -> Result<PlainTable, TableError>
    requires base { before.now.base ≡ length (shapes layers.now.base.now) }
    requires few { length (shapes layers.now.all.now) < 2 ^ 32 }
    requires begins { Begins (shapes layers.now.base.now) (shapes layers.now.before.now) }
    requires new { Begins (shapes layers.now.before.now) (shapes layers.now.all.now) }
    requires known { Desugars (shapes layers.now.base.now) (shapes layers.now.before.now)
        (table_of before.now) }
    requires bodies { AllByRecursion (IsBodyOf (shapes layers.now.all.now)
        (length (shapes layers.now.before.now))) (map body_data bodies.now) }
    ensures answer { IsTableMade before.now.base (shapes layers.now.all.now)
        (length (shapes layers.now.before.now)) (table_of before.now)
        (map body_data bodies.now) result }
    ensures desugars { IfOk result (λ t. Desugars (shapes layers.now.base.now)
        (shapes layers.now.all.now) (table_of t)) }
    ensures keeps { IfOk result (λ t. (label : ℕ) →
        label < length (shapes layers.now.before.now) →
        table_of before.now label ≡ table_of t label) }
{
    let copy = before.copy(alloc)?;
    let table = add_bodies(alloc, layers, copy, bodies)?;
    match first_without(layers.all, layers.before.cons.len(), &table) {
        None => {
            table.facts();
            Ok(table)
        }
        Some(label) => {
            drop(table);
            Err(TableError::NoPlain(label))
        }
    }
}
