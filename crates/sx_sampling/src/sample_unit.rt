//! The unit of the sample module.

ghost use Rattle.std.specs.Prelude.{◌≡◌, ◌≤◌, ℕ, List, length};
ghost use Rattle.sx_notation.specs.Language.{IsLanguage};
ghost use Rattle.sx_outside.specs.Told.{WhereTold};
ghost use Rattle.sx_steps.specs.Stop.{OnlyReads, Does};
ghost use Rattle.sx_accepting.specs.ReadLanguage.{stated_of, HasText};
ghost use Rattle.sx_headers.specs.ReadModule.{module_of, HasHeader};
ghost use Rattle.sx_unit.specs.Written.{unit_of};
ghost use Rattle.sx_sampling.specs.SampleSteps as spec;
ghost use Rattle.sx_term.specs.Limits.{most_bytes};

use std::alloc::Global;
use std::sync::ledger::Ledger;
use sx_accepting::{LanguageFile, read_language_file};
use sx_compiling::{Given, make_unit};
use sx_extcheck::Budgets;
use sx_headers::{ModuleFile, read_module};
use sx_importing::read_imports;
use sx_outside::Shelf;
use sx_steps::StepError;
use sx_term::{MOST_BUDGET, Steps, Text};
use sx_unit::Compiled;

/// The unit of the module in its language.
fn make_over<S: Shelf, L: Ledger>(
    alloc: Global,
    file: &Text,
    source: &ModuleFile,
    language: &LanguageFile,
    shelf: &mut S,
    steps: &mut Steps<L>,
) -> Result<Compiled, StepError>
    requires file { file.now ≡ spec.sample_file }
    requires headed { (name : List ℕ)
        × HasHeader name source.now.bytes.items (module_of source.now) }
    requires short { length source.now.bytes.items ≤ most_bytes }
    requires language { IsLanguage language.now.language }
    requires text { HasText source.now.header.language language.now.language }
    ensures step { WhereTold (S.content shelf.old) (λ files. Does unit_of
        (spec.MakesOver files (module_of source.now) (stated_of language.now)) result
        steps.old steps.new) }
    ensures reads { OnlyReads (S.content shelf.old) (S.content shelf.new)
        (S.read_faults shelf.old) (S.read_faults shelf.new)
        (S.write_faults shelf.old) (S.write_faults shelf.new) result }
{
    match read_imports(alloc, &source.header.imports, shelf) {
        Ok(imports) => {
            let given = Given {
                file,
                source,
                language,
                imports: &imports,
            };
            let budgets = Budgets {
                tries: MOST_BUDGET,
                nodes: MOST_BUDGET,
            };
            let unit = make_unit(alloc, &given, budgets, shelf, steps);
            drop(imports);
            unit
        }
        Err(e) => Err(e),
    }
}

/// The unit of the module that was read.
fn make_read<S: Shelf, L: Ledger>(
    alloc: Global,
    file: &Text,
    source: &ModuleFile,
    shelf: &mut S,
    steps: &mut Steps<L>,
) -> Result<Compiled, StepError>
    requires file { file.now ≡ spec.sample_file }
    requires headed { (name : List ℕ)
        × HasHeader name source.now.bytes.items (module_of source.now) }
    requires short { length source.now.bytes.items ≤ most_bytes }
    ensures step { WhereTold (S.content shelf.old) (λ files. Does unit_of
        (spec.MakesRead files (module_of source.now)) result steps.old steps.new) }
    ensures reads { OnlyReads (S.content shelf.old) (S.content shelf.new)
        (S.read_faults shelf.old) (S.read_faults shelf.new)
        (S.write_faults shelf.old) (S.write_faults shelf.new) result }
{
    match read_language_file(alloc, &source.header.language, shelf) {
        Ok(language) => {
            let unit = make_over(alloc, file, source, &language, shelf, steps);
            drop(language);
            unit
        }
        Err(e) => Err(e),
    }
}

/// The unit of the module with this name in the file.
fn make_named<S: Shelf, L: Ledger>(
    alloc: Global,
    name: &Text,
    file: &Text,
    shelf: &mut S,
    steps: &mut Steps<L>,
) -> Result<Compiled, StepError>
    requires name { name.now ≡ spec.sample_name }
    requires file { file.now ≡ spec.sample_file }
    ensures step { WhereTold (S.content shelf.old) (λ files. Does unit_of
        (spec.MakesSample files) result steps.old steps.new) }
    ensures reads { OnlyReads (S.content shelf.old) (S.content shelf.new)
        (S.read_faults shelf.old) (S.read_faults shelf.new)
        (S.write_faults shelf.old) (S.write_faults shelf.new) result }
{
    match read_module(alloc, file, name, shelf) {
        Ok(source) => {
            let unit = make_read(alloc, file, &source, shelf, steps);
            drop(source);
            unit
        }
        Err(e) => Err(e),
    }
}

/// The unit of the module Sample on the shelf.
pub(crate) fn make_sample<S: Shelf, L: Ledger>(
    alloc: Global,
    shelf: &mut S,
    steps: &mut Steps<L>,
) -> Result<Compiled, StepError>
    ensures step { WhereTold (S.content shelf.old) (λ files. Does unit_of
        (spec.MakesSample files) result steps.old steps.new) }
    ensures reads { OnlyReads (S.content shelf.old) (S.content shelf.new)
        (S.read_faults shelf.old) (S.read_faults shelf.new)
        (S.write_faults shelf.old) (S.write_faults shelf.new) result }
{
    let name = match Text::of_str(alloc, "Sample") {
        Ok(name) => name,
        Err(_) => return Err(StepError::Memory),
    };
    match Text::of_str(alloc, "Sample.mod") {
        Ok(file) => make_named(alloc, &name, &file, shelf, steps),
        Err(_) => Err(StepError::Memory),
    }
}
