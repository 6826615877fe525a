//! The places of the judgement that a derivation is lowered to, by number.

ghost use Rattle.std.specs.Prelude.{◌≡◌, ◌<◌, List, IfOk, length, map};
ghost use Rattle.sx_term.specs.Tree.{Tree};
ghost use Rattle.sx_term.specs.Term.{tree};
ghost use Rattle.sx_rules.specs.Sets.{forms_in};
ghost use Rattle.sx_rules.specs.Views.{places_at};
ghost use Rattle.sx_plain.specs.Plain.{image};
ghost use Rattle.sx_plain.specs.Views.{table_of};
ghost use Rattle.sx_arena.specs.Arena.{tree_at, AreBelow};
ghost use Rattle.sx_expand.specs.Readers.{terms_in, IsLoweringReader, ReaderGoesOn};
ghost use Rattle.sx_expand.specs.Roots.{IsImagePlace, IsRootPlace, StandAt, roles_of};

use crate::ends::number_at;
use crate::read::Read;
use crate::reader::Reader;
use std::alloc::Global;
use sx_arena::export_all;
use sx_plain::PlainTable;
use sx_rewrite::Accepted;
use sx_rules::{Judgement, Place};
use sx_term::{NoMemory, Role, TermError};

/// The judgement of the form with the plain images of the inputs and of the outputs at its places,
/// and the lowered subject. The one refusal is out of memory.
pub(crate) fn root_judgement(
    alloc: Global,
    set: &Accepted,
    reader: &mut Reader,
    form: u32,
    inputs: &[usize],
    read: &Read,
) -> Result<Judgement, NoMemory>
    requires reader { IsLoweringReader (table_of set.now.plain) reader.old }
    requires stand { (ks : List Tree) × StandAt (table_of set.now.plain) (terms_in reader.old)
        read.now.subject (roles_of (places_at (forms_in set.now.base) form)) inputs.now
        read.now.outputs.items ks }
    ensures form { IfOk result (λ x. x.form ≡ form) }
    ensures places { IfOk result (λ x. (ks : List Tree) →
        StandAt (table_of set.now.plain) (terms_in reader.old)
        read.now.subject (roles_of (places_at (forms_in set.now.base) form)) inputs.now
        read.now.outputs.items ks → map tree x.places.items ≡ ks) }
{
    let places = set.base_rules().places_of(form);
    let numbers = root_numbers(alloc, set.plain(), reader, places, inputs, read)?;
    let terms = export_all(alloc, &reader.arena, &numbers);
    drop(numbers);
    Ok(Judgement {
        form,
        places: terms?,
    })
}

/// The numbers of the plain images of the inputs and of the outputs, each at a place of its role,
/// with that of the lowered subject. The one refusal is out of memory.
fn root_numbers(
    alloc: Global,
    table: &PlainTable,
    reader: &mut Reader,
    places: &[Place],
    inputs: &[usize],
    read: &Read,
) -> Result<Vec<usize>, NoMemory>
    requires reader { IsLoweringReader (table_of table.now) reader.old }
    requires stand { (ks : List Tree) × StandAt (table_of table.now) (terms_in reader.old)
        read.now.subject (roles_of places.now) inputs.now read.now.outputs.items ks }
    ensures { IfOk result (λ x. ReaderGoesOn (table_of table.now) reader.old reader.new
        × AreBelow (length (terms_in reader.new)) x.items
        × ((ks : List Tree) → StandAt (table_of table.now) (terms_in reader.old)
        read.now.subject (roles_of places.now) inputs.now read.now.outputs.items ks →
        map (tree_at (terms_in reader.new)) x.items ≡ ks)) }
{
    let mut numbers = Vec::with_capacity(alloc, places.len())?;
    let mut given = 0;
    let mut made = 0;
    for place in places {
        let term = match place.role {
            Role::In | Role::Sub => {
                let term = number_at(inputs, given);
                given += 1;
                term
            }
            Role::Out => {
                let term = number_at(&read.outputs, made);
                made += 1;
                term
            }
        };
        let number = place_number(alloc, table, reader, place.role, term, read.subject)?;
        numbers.push(number)?;
    }
    Ok(numbers)
}

/// The number of what stands at a place of this role in the lowered judgement, where the term with
/// the other number stands there in the judgement. The one refusal is out of memory.
fn place_number(
    alloc: Global,
    table: &PlainTable,
    reader: &mut Reader,
    role: Role,
    term: usize,
    subject: Option<usize>,
) -> Result<usize, NoMemory>
    requires reader { IsLoweringReader (table_of table.now) reader.old }
    requires place { (k : Tree) × IsRootPlace (table_of table.now)
        (terms_in reader.old) subject role
        term k }
    ensures { IfOk result (λ n. ReaderGoesOn (table_of table.now) reader.old reader.new
        × (n < length (terms_in reader.new))
        × ((k : Tree) → IsRootPlace (table_of table.now) (terms_in reader.old) subject role term k →
        tree_at (terms_in reader.new) n ≡ k)) }
{
    match role {
        Role::In | Role::Out => small_image(alloc, table, reader, term),
        Role::Sub => match subject {
            Some(number) => Ok(number),
            None => unreachable!(),
        },
    }
}

/// The number of the plain image of the term with this number, which passes no limit.
/// The one refusal is out of memory.
fn small_image(
    alloc: Global,
    table: &PlainTable,
    reader: &mut Reader,
    term: usize,
) -> Result<usize, NoMemory>
    requires reader { IsLoweringReader (table_of table.now) reader.old }
    requires place { (k : Tree) × IsImagePlace (table_of table.now) (terms_in reader.old) term k }
    ensures { IfOk result (λ n. ReaderGoesOn (table_of table.now) reader.old reader.new
        × (n < length (terms_in reader.new))
        × (tree_at (terms_in reader.new) n
        ≡ image (table_of table.now) (tree_at (terms_in reader.old) term))) }
{
    match reader.images.lower(alloc, table, &mut reader.arena, term) {
        Ok(number) => Ok(number),
        Err(TermError::Memory) => Err(NoMemory::Memory),
        Err(TermError::TooDeep(_)) => unreachable!(),
        Err(TermError::TooBig(_)) => unreachable!(),
    }
}
