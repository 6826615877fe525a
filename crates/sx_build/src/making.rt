//! The steps that make one module of a closure.

ghost use Rattle.std.specs.Prelude.{◌≡◌, ◌++◌, ◌∷◌, [], IfOk, map};
ghost use Rattle.std.specs.List.{AllByRecursion};
ghost use Rattle.sx_unit.specs.Written.{unit_of};
ghost use Rattle.sx_environment.specs.SeenFrom.{IsShort, interfaces_of};
ghost use Rattle.sx_outside.specs.Told.{WhereTold};
ghost use Rattle.sx_outside.specs.Views.{clean_files_of};
ghost use Rattle.sx_steps.specs.Stop.{Gives, Does, OnlyReads, IsNoFault};
ghost use Rattle.sx_accepting.specs.ReadLanguage.{stated_of};
ghost use Rattle.sx_headers.specs.ReadModule.{module_of};
ghost use Rattle.sx_importing.specs.ReadImports.{import_of};
ghost use Rattle.sx_closure.specs.ReadModules.{IsModuleStated};
ghost use Rattle.sx_compiling.specs.CanMake.{HasDerivationList};
ghost use Rattle.sx_compiling.specs.KeptFiles.{AreKeptOf};
ghost use Rattle.sx_compiling.specs.MakeUnit.{MakesUnit};
ghost use Rattle.sx_build.specs.BuildModules as spec;
ghost use Rattle.sx_build.specs.Buildings.{made_view, mades_view, AreMore, HasStatedLanguage};
ghost use Rattle.sx_build.specs.Buildings.{CanBuild};
ghost use Rattle.sx_build.specs.MadeModules.{made_of};
ghost use Rattle.sx_build.specs.Remembering.{remembered_imports, Remembers};

use crate::asked::Asked;
use crate::building::Building;
use crate::imports_made::imports_made;
use crate::made::Made;
use std::alloc::Global;
use std::sync::ledger::Ledger;
use sx_auditing::show_unit;
use sx_compiling::{Given, make_unit_of_several};
use sx_headers::ModuleFile;
use sx_interface::Import;
use sx_outside::{CleanShelf, Shelf};
use sx_steps::{StepError, with_suffix};
use sx_term::{NoMemory, Steps, Text};
use sx_unit::Compiled;

/// What is kept of the unit of the module with this name.
fn made_from(alloc: Global, name: &Text, unit: Compiled) -> Result<Made, NoMemory>
    ensures { IfOk result (λ made. made_view made ≡ made_of name.now (unit_of unit)) }
{
    let Compiled {
        base,
        interface,
        derivation,
        list,
        nodes,
        ..
    } = unit;
    drop(list);
    Ok(Made {
        name: name.copy(alloc)?,
        base,
        list: derivation,
        interface,
        nodes,
    })
}

/// Adds the unit of the module with this name to those that were made.
fn add_made(
    alloc: Global,
    name: &Text,
    unit: Compiled,
    made: &mut Vec<Made>,
) -> Result<(), NoMemory>
    ensures { IfOk result (λ done. mades_view made.new.items ≡
        mades_view made.old.items ++ made_of name.now (unit_of unit) ∷ []) }
{
    let one = made_from(alloc, name, unit)?;
    made.push(one)?;
    Ok(())
}

/// The unit of the module with these imports.
fn make_one<S: Shelf, L: Ledger>(
    asked: &Asked,
    source: &ModuleFile,
    imports: &[Import],
    kept: &mut CleanShelf,
    shelf: &mut S,
    steps: &mut Steps<L>,
) -> Result<Compiled, StepError>
    requires stated { IsModuleStated (module_of source.now) }
    requires language { HasStatedLanguage (module_of source.now) asked.now.language.now }
    requires short { AllByRecursion IsShort (interfaces_of imports.now) }
    requires named { map (λ it. it.name) (interfaces_of imports.now) ≡
        source.now.header.imports.items }
    requires kept { WhereTold (S.content shelf.old) (AreKeptOf (clean_files_of kept.old)) }
    ensures step { WhereTold (S.content shelf.old) (λ files. Does unit_of
        (MakesUnit asked.now.budgets files (spec.given_in (stated_of asked.now.language.now)
        (module_of source.now) (map import_of imports.now))) result steps.old steps.new) }
    ensures list { IfOk result (HasDerivationList asked.now.language.now.language) }
    ensures kept { WhereTold (S.content shelf.old) (AreKeptOf (clean_files_of kept.new)) }
    ensures reads { OnlyReads (S.content shelf.old) (S.content shelf.new)
        (S.read_faults shelf.old) (S.read_faults shelf.new)
        (S.write_faults shelf.old) (S.write_faults shelf.new) result }
{
    match with_suffix(asked.alloc, &source.header.name, ".mod") {
        Ok(file) => {
            let given = Given {
                file: &file,
                source,
                language: asked.language,
                imports,
            };
            let unit = make_unit_of_several(asked.alloc, &given, kept, asked.budgets, shelf, steps);
            drop(file);
            unit
        }
        Err(_) => Err(StepError::Memory),
    }
}

/// Shows the unit of the module to the auditors, and adds it to those that were made.
fn show_made(
    asked: &Asked,
    source: &ModuleFile,
    unit: Compiled,
    building: &mut Building,
) -> Result<(), StepError>
    requires { HasDerivationList asked.now.language.now.language unit }
    ensures step { Gives (λ done. record {
      made = mades_view building.new.made.items;
      auditors = map (λ b. meaning b) building.new.auditors.items;
    })
        (spec.ShowsUnit (stated_of asked.now.language.now) (record {
          made = mades_view building.old.made.items;
          auditors = map (λ b. meaning b) building.old.auditors.items;
        })
        (module_of source.now) (unit_of unit)) result }
    ensures names { IfOk result (λ done. map (λ m. m.name) (mades_view building.new.made.items) ≡
        map (λ m. m.name) (mades_view building.old.made.items)
        ++ source.now.header.name ∷ []) }
    ensures more { IfOk result (λ done. AreMore (mades_view building.old.made.items)
        (mades_view building.new.made.items)) }
    ensures remembered { building.new.remembered ≡ building.old.remembered }
    ensures extensions { building.new.extensions ≡ building.old.extensions }
    ensures no_fault { IsNoFault result }
{
    let file = match with_suffix(asked.alloc, &source.header.name, ".mod") {
        Ok(file) => file,
        Err(_) => {
            drop(unit);
            return Err(StepError::Memory);
        }
    };
    let rules = &asked.language.language.rules;
    match show_unit(
        asked.alloc,
        &file,
        &mut building.auditors,
        rules,
        &unit.list,
    ) {
        Ok(()) => match add_made(asked.alloc, &source.header.name, unit, &mut building.made) {
            Ok(()) => Ok(()),
            Err(_) => Err(StepError::Memory),
        },
        Err(e) => {
            drop(unit);
            Err(e)
        }
    }
}

/// Makes the unit of the module with these imports, and shows it.
fn make_with<S: Shelf, L: Ledger>(
    asked: &Asked,
    source: &ModuleFile,
    imports: &[Import],
    building: &mut Building,
    shelf: &mut S,
    steps: &mut Steps<L>,
) -> Result<(), StepError>
    requires stated { IsModuleStated (module_of source.now) }
    requires language { HasStatedLanguage (module_of source.now) asked.now.language.now }
    requires short { AllByRecursion IsShort (interfaces_of imports.now) }
    requires named { map (λ it. it.name) (interfaces_of imports.now) ≡
        source.now.header.imports.items }
    requires kept { WhereTold (S.content shelf.old)
        (AreKeptOf (clean_files_of building.old.extensions)) }
    ensures step { WhereTold (S.content shelf.old) (λ files. Does (λ done. record {
      made = mades_view building.new.made.items;
      auditors = map (λ b. meaning b) building.new.auditors.items;
    })
        (spec.MakesWith asked.now.budgets files (stated_of asked.now.language.now) (record {
          made = mades_view building.old.made.items;
          auditors = map (λ b. meaning b) building.old.auditors.items;
        })
        (module_of source.now) (map import_of imports.now)) result steps.old steps.new) }
    ensures names { IfOk result (λ done. map (λ m. m.name) (mades_view building.new.made.items) ≡
        map (λ m. m.name) (mades_view building.old.made.items)
        ++ source.now.header.name ∷ []) }
    ensures more { IfOk result (λ done. AreMore (mades_view building.old.made.items)
        (mades_view building.new.made.items)) }
    ensures remembered { building.new.remembered ≡ building.old.remembered }
    ensures kept { WhereTold (S.content shelf.old)
        (AreKeptOf (clean_files_of building.new.extensions)) }
    ensures reads { OnlyReads (S.content shelf.old) (S.content shelf.new)
        (S.read_faults shelf.old) (S.read_faults shelf.new)
        (S.write_faults shelf.old) (S.write_faults shelf.new) result }
{
    match make_one(
        asked,
        source,
        imports,
        &mut building.extensions,
        shelf,
        steps,
    ) {
        Ok(unit) => show_made(asked, source, unit, building),
        Err(e) => Err(e),
    }
}

/// Makes one module more, with what it imports of those before it.
pub(crate) fn make_next<S: Shelf, L: Ledger>(
    asked: &Asked,
    source: &ModuleFile,
    building: &mut Building,
    shelf: &mut S,
    steps: &mut Steps<L>,
) -> Result<(), StepError>
    requires can { CanBuild (mades_view building.old.made.items) (module_of source.now)
        asked.now.language.now }
    requires remembers { Remembers (mades_view building.old.made.items)
        (remembered_imports building.old.remembered) }
    requires kept { WhereTold (S.content shelf.old)
        (AreKeptOf (clean_files_of building.old.extensions)) }
    ensures step { WhereTold (S.content shelf.old) (λ files. Does (λ done. record {
      made = mades_view building.new.made.items;
      auditors = map (λ b. meaning b) building.new.auditors.items;
    })
        (spec.MakesNext asked.now.budgets files (stated_of asked.now.language.now) (record {
          made = mades_view building.old.made.items;
          auditors = map (λ b. meaning b) building.old.auditors.items;
        })
        (module_of source.now)) result steps.old steps.new) }
    ensures names { IfOk result (λ done. map (λ m. m.name) (mades_view building.new.made.items) ≡
        map (λ m. m.name) (mades_view building.old.made.items)
        ++ source.now.header.name ∷ []) }
    ensures remembers { IfOk result (λ done. Remembers (mades_view building.new.made.items)
        (remembered_imports building.new.remembered)) }
    ensures kept { WhereTold (S.content shelf.old)
        (AreKeptOf (clean_files_of building.new.extensions)) }
    ensures reads { OnlyReads (S.content shelf.old) (S.content shelf.new)
        (S.read_faults shelf.old) (S.read_faults shelf.new)
        (S.write_faults shelf.old) (S.write_faults shelf.new) result }
{
    match imports_made(
        asked.alloc,
        &building.made,
        &source.header.imports,
        &mut building.remembered,
    ) {
        Ok(imports) => {
            let done = make_with(asked, source, &imports, building, shelf, steps);
            building.remembered.keep_all(imports);
            done
        }
        Err(e) => Err(e),
    }
}
