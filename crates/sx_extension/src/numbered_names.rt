//! Names that are found by their hashes.

ghost use Rattle.std.specs.Prelude.{◌≡◌, ◌-◌, ◌<◌, ◌≤◌, ◌^◌, Some, Contains, length, map};
ghost use Rattle.std.specs.Prelude.{slice_get, IfOk};
ghost use Rattle.sx_term.specs.Cutting.{AreDistinct as AreOnce};
ghost use Rattle.sx_lines.specs.Distinct.{AreTextsDistinct};
ghost use Rattle.sx_term.specs.Limits.{most_bytes};

use std::alloc::Global;
use sx_grammar::Production;
use sx_term::{NoMemory, Text, Vars};

/// The most names that a text of 262,144 bytes can have.
const MOST_NAMES: usize = sx_term::MOST_BYTES as usize;

/// The names, none of which stands twice, with their numbers. More than 262,144 take more memory
/// than there is.
pub(crate) fn part_names(alloc: Global, names: &[Text]) -> Result<Vars, NoMemory>
    requires { AreTextsDistinct names.now }
    ensures same { IfOk result (λ v. v ≡ names.now) }
    ensures few { IfOk result (λ _. length names.now ≤ most_bytes) }
{
    if names.len() > MOST_NAMES {
        return Err(NoMemory::Memory);
    }
    let mut vars = Vars::new(alloc);
    for i in 0..names.len() {
        let name = &names[i];
        vars.add_copy(alloc, name)?;
    }
    Ok(vars)
}

/// The labels of the productions, none of which stands twice, with their numbers.
pub(crate) fn label_names(alloc: Global, productions: &[Production]) -> Result<Vars, NoMemory>
    requires once { AreOnce (map (λ p. p.label) productions.now) }
    requires few { length productions.now < 2 ^ 32 - 1 }
    ensures { IfOk result (λ v. v ≡ map (λ p. p.label) productions.now) }
{
    let mut vars = Vars::new(alloc);
    for i in 0..productions.len() {
        let production = &productions[i];
        vars.add_copy(alloc, &production.label)?;
    }
    Ok(vars)
}

/// The number of the name, which is one of these.
pub(crate) fn number_in(alloc: Global, names: &mut Vars, name: &Text) -> Result<u32, NoMemory>
    requires there { Contains names.old name.now }
    requires few { length names.old < 2 ^ 32 - 1 }
    ensures number { IfOk result (λ n. slice_get names.old n ≡ Some name.now) }
    ensures same { IfOk result (λ _. names.new ≡ names.old) }
{
    names.add_copy(alloc, name)
}
