//! The steps of `compile NAME`.

ghost use Rattle.std.specs.Prelude.{◌≡◌, ◌≤◌, length, map};
ghost use Rattle.sx_notation.specs.Language.{IsLanguage};
ghost use Rattle.sx_outside.specs.Told.{WhereTold};
ghost use Rattle.sx_steps.specs.Stop.{OnlyReads, Does};
ghost use Rattle.sx_steps.specs.Work.{plan_of};
ghost use Rattle.sx_accepting.specs.ReadLanguage.{HasText, stated_of};
ghost use Rattle.sx_headers.specs.ReadModule.{HasHeader, module_of};
ghost use Rattle.sx_compiling.specs.CanMake.{CanMake, given_of};
ghost use Rattle.sx_headers.specs.ModuleFiles.{module_file};
ghost use Rattle.sx_compile.specs.CompileModule as spec;
ghost use Rattle.sx_term.specs.Limits.{most_bytes};

use crate::asked::Asked;
use crate::audited_work::audit_unit;
use crate::import_names::{check_few, check_others};
use std::alloc::Global;
use std::sync::ledger::Ledger;
use sx_accepting::{LanguageFile, read_language_file};
use sx_audit::Auditor;
use sx_compiling::{Given, make_unit};
use sx_extcheck::Budgets;
use sx_headers::{ModuleFile, read_module};
use sx_importing::read_imports;
use sx_outside::Shelf;
use sx_steps::{StepError, Work, with_suffix};
use sx_term::{Steps, Text};

/// The steps from what the module is made from.
fn compile_given<S: Shelf, L: Ledger>(
    asked: &Asked,
    given: &Given,
    auditors: &mut Vec<Box<dyn Auditor>>,
    shelf: &mut S,
    steps: &mut Steps<L>,
) -> Result<Work, StepError>
    requires file { given.now.file.now ≡ module_file asked.now.name.now }
    requires can { CanMake given.now }
    ensures step { WhereTold (S.content shelf.old) (λ files. Does plan_of
        (spec.CompilesGiven asked.now.name.now asked.now.budgets
        (map (λ b. meaning b) auditors.old.items) files (given_of given.now)) result
        steps.old steps.new) }
    ensures reads { OnlyReads (S.content shelf.old) (S.content shelf.new)
        (S.read_faults shelf.old) (S.read_faults shelf.new)
        (S.write_faults shelf.old) (S.write_faults shelf.new) result }
{
    match make_unit(asked.alloc, given, asked.budgets, shelf, steps) {
        Ok(unit) => audit_unit(asked, given, unit, auditors),
        Err(e) => Err(e),
    }
}

/// The steps from the language that the module's header names.
fn compile_over<S: Shelf, L: Ledger>(
    asked: &Asked,
    source: &ModuleFile,
    language: &LanguageFile,
    auditors: &mut Vec<Box<dyn Auditor>>,
    shelf: &mut S,
    steps: &mut Steps<L>,
) -> Result<Work, StepError>
    requires file { asked.now.file.now ≡ module_file asked.now.name.now }
    requires short { length source.now.bytes.items ≤ most_bytes }
    requires headed { HasHeader asked.now.name.now source.now.bytes.items
        (module_of source.now) }
    requires language { IsLanguage language.now.language }
    requires text { HasText source.now.header.language language.now.language }
    ensures step { WhereTold (S.content shelf.old) (λ files. Does plan_of
        (spec.CompilesOver asked.now.name.now asked.now.budgets
        (map (λ b. meaning b) auditors.old.items) files (module_of source.now)
        (stated_of language.now)) result steps.old steps.new) }
    ensures reads { OnlyReads (S.content shelf.old) (S.content shelf.new)
        (S.read_faults shelf.old) (S.read_faults shelf.new)
        (S.write_faults shelf.old) (S.write_faults shelf.new) result }
{
    match read_imports(asked.alloc, &source.header.imports, shelf) {
        Ok(imports) => {
            let given = Given {
                file: asked.file,
                source,
                language,
                imports: &imports,
            };
            let work = compile_given(asked, &given, auditors, shelf, steps);
            drop(imports);
            work
        }
        Err(e) => Err(e),
    }
}

/// The steps from a module that has not too many imports.
fn compile_few<S: Shelf, L: Ledger>(
    asked: &Asked,
    source: &ModuleFile,
    auditors: &mut Vec<Box<dyn Auditor>>,
    shelf: &mut S,
    steps: &mut Steps<L>,
) -> Result<Work, StepError>
    requires file { asked.now.file.now ≡ module_file asked.now.name.now }
    requires short { length source.now.bytes.items ≤ most_bytes }
    requires headed { HasHeader asked.now.name.now source.now.bytes.items
        (module_of source.now) }
    ensures step { WhereTold (S.content shelf.old) (λ files. Does plan_of
        (spec.CompilesFew asked.now.name.now asked.now.budgets
        (map (λ b. meaning b) auditors.old.items) files (module_of source.now)) result
        steps.old steps.new) }
    ensures reads { OnlyReads (S.content shelf.old) (S.content shelf.new)
        (S.read_faults shelf.old) (S.read_faults shelf.new)
        (S.write_faults shelf.old) (S.write_faults shelf.new) result }
{
    match read_language_file(asked.alloc, &source.header.language, shelf) {
        Ok(language) => {
            let work = compile_over(asked, source, &language, auditors, shelf, steps);
            drop(language);
            work
        }
        Err(e) => Err(e),
    }
}

/// The steps from a module that does not import itself.
fn compile_others<S: Shelf, L: Ledger>(
    asked: &Asked,
    source: &ModuleFile,
    auditors: &mut Vec<Box<dyn Auditor>>,
    shelf: &mut S,
    steps: &mut Steps<L>,
) -> Result<Work, StepError>
    requires file { asked.now.file.now ≡ module_file asked.now.name.now }
    requires short { length source.now.bytes.items ≤ most_bytes }
    requires headed { HasHeader asked.now.name.now source.now.bytes.items
        (module_of source.now) }
    ensures step { WhereTold (S.content shelf.old) (λ files. Does plan_of
        (spec.CompilesOthers asked.now.name.now asked.now.budgets
        (map (λ b. meaning b) auditors.old.items) files (module_of source.now)) result
        steps.old steps.new) }
    ensures reads { OnlyReads (S.content shelf.old) (S.content shelf.new)
        (S.read_faults shelf.old) (S.read_faults shelf.new)
        (S.write_faults shelf.old) (S.write_faults shelf.new) result }
{
    match check_few(asked.alloc, asked.file, source) {
        Ok(()) => compile_few(asked, source, auditors, shelf, steps),
        Err(e) => Err(e),
    }
}

/// The steps from the module in its file.
fn compile_read<S: Shelf, L: Ledger>(
    asked: &Asked,
    source: &ModuleFile,
    auditors: &mut Vec<Box<dyn Auditor>>,
    shelf: &mut S,
    steps: &mut Steps<L>,
) -> Result<Work, StepError>
    requires file { asked.now.file.now ≡ module_file asked.now.name.now }
    requires short { length source.now.bytes.items ≤ most_bytes }
    requires headed { HasHeader asked.now.name.now source.now.bytes.items
        (module_of source.now) }
    ensures step { WhereTold (S.content shelf.old) (λ files. Does plan_of
        (spec.CompilesRead asked.now.name.now asked.now.budgets
        (map (λ b. meaning b) auditors.old.items) files (module_of source.now)) result
        steps.old steps.new) }
    ensures reads { OnlyReads (S.content shelf.old) (S.content shelf.new)
        (S.read_faults shelf.old) (S.read_faults shelf.new)
        (S.write_faults shelf.old) (S.write_faults shelf.new) result }
{
    match check_others(asked, source) {
        Ok(()) => compile_others(asked, source, auditors, shelf, steps),
        Err(e) => Err(e),
    }
}

/// The steps from the name of the module's file.
fn compile_file<S: Shelf, L: Ledger>(
    asked: &Asked,
    auditors: &mut Vec<Box<dyn Auditor>>,
    shelf: &mut S,
    steps: &mut Steps<L>,
) -> Result<Work, StepError>
    requires { asked.now.file.now ≡ module_file asked.now.name.now }
    ensures step { WhereTold (S.content shelf.old) (λ files. Does plan_of
        (spec.CompilesModule asked.now.name.now asked.now.budgets
        (map (λ b. meaning b) auditors.old.items) files) result steps.old steps.new) }
    ensures reads { OnlyReads (S.content shelf.old) (S.content shelf.new)
        (S.read_faults shelf.old) (S.read_faults shelf.new)
        (S.write_faults shelf.old) (S.write_faults shelf.new) result }
{
    match read_module(asked.alloc, asked.file, asked.name, shelf) {
        Ok(source) => {
            let work = compile_read(asked, &source, auditors, shelf, steps);
            drop(source);
            work
        }
        Err(e) => Err(e),
    }
}

/// The steps of `compile NAME`, with so many tries to spend for each walk and so many nodes for
/// each derivation that is lowered: the module's file is read. It is refused where it imports
/// itself, and then where it has more than 255 imports. The file of its language is read, then the
/// interface of each import, in the order of its header; its unit is made from all of this; and the
/// nodes of its derivation are shown to the auditors, whose texts are told behind the line. How far
/// the auditors came is not said: the caller has no more use for them.
pub fn plan_compile<S: Shelf, L: Ledger>(
    alloc: Global,
    name: &Text,
    budgets: Budgets,
    auditors: &mut Vec<Box<dyn Auditor>>,
    shelf: &mut S,
    steps: &mut Steps<L>,
) -> Result<Work, StepError>
    ensures step { WhereTold (S.content shelf.old) (λ files. Does plan_of
        (spec.CompilesModule name.now budgets (map (λ b. meaning b) auditors.old.items) files)
        result steps.old steps.new) }
    ensures reads { OnlyReads (S.content shelf.old) (S.content shelf.new)
        (S.read_faults shelf.old) (S.read_faults shelf.new)
        (S.write_faults shelf.old) (S.write_faults shelf.new) result }
{
    match with_suffix(alloc, name, ".mod") {
        Ok(file) => {
            let asked = Asked {
                alloc,
                name,
                file: &file,
                budgets,
            };
            compile_file(&asked, auditors, shelf, steps)
        }
        Err(_) => Err(StepError::Memory),
    }
}
