//! The steps of `build NAME`.

ghost use Rattle.std.specs.Prelude.{◌≡◌, [], ℕ, List, map};
ghost use Rattle.std.specs.List.{AllByRecursion};
ghost use Rattle.sx_outside.specs.Told.{WhereTold};
ghost use Rattle.sx_outside.specs.Views.{clean_files_of};
ghost use Rattle.sx_steps.specs.Stop.{Does, OnlyReads};
ghost use Rattle.sx_steps.specs.Work.{plan_of};
ghost use Rattle.sx_accepting.specs.ReadLanguage.{stated_of};
ghost use Rattle.sx_headers.specs.ReadModule.{module_of};
ghost use Rattle.sx_compiling.specs.KeptFiles.{AreKeptOf};
ghost use Rattle.sx_build.specs.BuildModules as spec;
ghost use Rattle.sx_closure.specs.Closures.{IsClosure};
ghost use Rattle.sx_closure.specs.ReadModules.{IsModuleStated};
ghost use Rattle.sx_build.specs.Buildings.{mades_view, CanMakeAll};
ghost use Rattle.sx_build.specs.Remembering.{remembered_imports, Remembers};

use crate::asked::Asked;
use crate::budgeted::Budgeted;
use crate::building::Building;
use crate::making::make_next;
use crate::remembered::Remembered;
use crate::whole_work::whole_work;
use std::alloc::Global;
use std::sync::ledger::Ledger;
use sx_accepting::read_language_file;
use sx_audit::Auditor;
use sx_closure::read_modules;
use sx_extcheck::Budgets;
use sx_headers::ModuleFile;
use sx_outside::{CleanShelf, Shelf};
use sx_steps::{StepError, Work};
use sx_term::{Steps, Text};

/// Makes the modules in order, each after all that it imports.
fn make_all<S: Shelf, L: Ledger>(
    asked: &Asked,
    sources: &[ModuleFile],
    building: &mut Building,
    shelf: &mut S,
    steps: &mut Steps<L>,
) -> Result<(), StepError>
    requires can { CanMakeAll (map module_of sources.now) asked.now.language.now }
    requires begun { mades_view building.old.made.items ≡ [] }
    requires remembers { Remembers [] (remembered_imports building.old.remembered) }
    requires kept { WhereTold (S.content shelf.old)
        (AreKeptOf (clean_files_of building.old.extensions)) }
    ensures step { WhereTold (S.content shelf.old) (λ files. Does (λ done. record {
      made = mades_view building.new.made.items;
      auditors = map (λ b. meaning b) building.new.auditors.items;
    })
        (spec.MakesAfter asked.now.budgets files (stated_of asked.now.language.now)
        (spec.none_made (map (λ b. meaning b) building.old.auditors.items))
        (map module_of sources.now)) result steps.old steps.new) }
    ensures reads { OnlyReads (S.content shelf.old) (S.content shelf.new)
        (S.read_faults shelf.old) (S.read_faults shelf.new)
        (S.write_faults shelf.old) (S.write_faults shelf.new) result }
{
    for i in 0..sources.len() {
        let source = &sources[i];
        match make_next(asked, source, building, shelf, steps) {
            Ok(()) => {}
            Err(e) => return Err(e),
        }
    }
    Ok(())
}

/// The steps over the language of the modules.
fn build_over<S: Shelf, L: Ledger>(
    asked: &Asked,
    sources: &[ModuleFile],
    auditors: Vec<Box<dyn Auditor>>,
    shelf: &mut S,
    steps: &mut Steps<L>,
) -> Result<Work, StepError>
    requires { CanMakeAll (map module_of sources.now) asked.now.language.now }
    ensures step { WhereTold (S.content shelf.old) (λ files. Does plan_of
        (spec.BuildsOver asked.now.budgets (map (λ b. meaning b) auditors.items) files
        (map module_of sources.now) (stated_of asked.now.language.now)) result
        steps.old steps.new) }
    ensures reads { OnlyReads (S.content shelf.old) (S.content shelf.new)
        (S.read_faults shelf.old) (S.read_faults shelf.new)
        (S.write_faults shelf.old) (S.write_faults shelf.new) result }
{
    let mut building = Building {
        made: Vec::new(asked.alloc),
        auditors,
        remembered: Remembered::new(asked.alloc),
        extensions: CleanShelf::new(asked.alloc),
    };
    match make_all(asked, sources, &mut building, shelf, steps) {
        Ok(()) => match whole_work(asked.alloc, building) {
            Ok(work) => Ok(work),
            Err(_) => Err(StepError::Memory),
        },
        Err(e) => {
            drop(building);
            Err(e)
        }
    }
}

/// The steps over the modules of the closure, which are some.
fn build_read<S: Shelf, L: Ledger>(
    given: &Budgeted,
    sources: &[ModuleFile],
    auditors: Vec<Box<dyn Auditor>>,
    shelf: &mut S,
    steps: &mut Steps<L>,
) -> Result<Work, StepError>
    requires stated { AllByRecursion IsModuleStated (map module_of sources.now) }
    requires closure { (name : List ℕ) × IsClosure name (map module_of sources.now) }
    ensures step { WhereTold (S.content shelf.old) (λ files. Does plan_of
        (spec.BuildsRead given.now.budgets (map (λ b. meaning b) auditors.items) files
        (map module_of sources.now)) result steps.old steps.new) }
    ensures reads { OnlyReads (S.content shelf.old) (S.content shelf.new)
        (S.read_faults shelf.old) (S.read_faults shelf.new)
        (S.write_faults shelf.old) (S.write_faults shelf.new) result }
{
    match read_language_file(given.alloc, &sources[0].header.language, shelf) {
        Ok(language) => {
            let asked = Asked {
                alloc: given.alloc,
                language: &language,
                budgets: given.budgets,
            };
            let work = build_over(&asked, sources, auditors, shelf, steps);
            drop(language);
            work
        }
        Err(e) => {
            drop(auditors);
            Err(e)
        }
    }
}

/// The steps of `build NAME`, with so many tries to spend for each walk and so many nodes for each
/// derivation that is lowered. The files of the modules are read along their `import` lines, and
/// that of their language; then each module is made, after all that it imports and with the
/// interfaces that these were given, and its derivation is shown to the auditors. All files are
/// planned, in order, then the line of each module, and then the auditors' texts.
pub fn plan_build_module<S: Shelf, L: Ledger>(
    alloc: Global,
    name: &Text,
    budgets: Budgets,
    auditors: Vec<Box<dyn Auditor>>,
    shelf: &mut S,
    steps: &mut Steps<L>,
) -> Result<Work, StepError>
    ensures step { WhereTold (S.content shelf.old)
        (λ files. Does plan_of (spec.BuildsModule name.now budgets
        (map (λ b. meaning b) auditors.items) files) result steps.old steps.new) }
    ensures reads { OnlyReads (S.content shelf.old) (S.content shelf.new)
        (S.read_faults shelf.old) (S.read_faults shelf.new)
        (S.write_faults shelf.old) (S.write_faults shelf.new) result }
{
    match read_modules(alloc, name, shelf) {
        Ok(sources) => {
            let given = Budgeted { alloc, budgets };
            let work = build_read(&given, &sources, auditors, shelf, steps);
            drop(sources);
            work
        }
        Err(e) => {
            drop(auditors);
            Err(e)
        }
    }
}
