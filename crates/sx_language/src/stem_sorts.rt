//! The sorts of the stems of names.

ghost use Rattle.std.specs.Prelude.{◌<◌, ◌^◌, length, IfOk};
ghost use Rattle.sx_language.specs.RuleTexts.{HaveStemSorts, NamesHaveStems};

use std::alloc::Global;
use sx_earley::Stems;
use sx_term::{NoMemory, Sort, Vars};

/// The sorts of the stems of the names, which are among these.
pub(crate) fn sorts_of(alloc: Global, stems: &Stems, names: &Vars) -> Result<Vec<Sort>, NoMemory>
    requires known { NamesHaveStems stems.now names.now }
    requires few { length names.now < 2 ^ 32 }
    ensures { IfOk result (λ v. HaveStemSorts stems.now names.now v.items) }
{
    let mut sorts = Vec::new(alloc);
    let mut number: u32 = 0;
    while let Some(name) = names.name(number) {
        match stems.sort_of(name.bytes()) {
            Some(sort) => sorts.push(sort)?,
            None => unreachable!(),
        }
        number += 1;
    }
    Ok(sorts)
}
