//! The files that the sample module needs.

ghost use Rattle.std.specs.Prelude.{◌≡◌, ◌≤◌, IfOk};
ghost use Rattle.sx_outside.specs.Views.{clean_files_of};
ghost use Rattle.sx_sample.specs.Holding.{sample_files};

use crate::sampling::sample;
use crate::texts::{LAM_LANG, LET_EXT};
use std::alloc::Global;
use sx_outside::CleanShelf;
use sx_term::{NoMemory, Text};

/// The sample module with so many names, from 1 to 300 of them, its language and its extension, as
/// files in memory.
pub fn sample_shelf(alloc: Global, number: u32) -> Result<CleanShelf, NoMemory>
    requires some { 1 ≤ number }
    requires most { number ≤ 300 }
    ensures { IfOk result (λ shelf. clean_files_of shelf ≡ sample_files number) }
{
    let mut shelf = CleanShelf::new(alloc);
    let language = Vec::from_slice(alloc, LAM_LANG)?;
    shelf.put(Text::of_str(alloc, "Lam.lang")?, language)?;
    let extension = Vec::from_slice(alloc, LET_EXT)?;
    shelf.put(Text::of_str(alloc, "Let.ext")?, extension)?;
    let module = sample(alloc, number)?;
    shelf.put(Text::of_str(alloc, "Sample.mod")?, module)?;
    Ok(shelf)
}
