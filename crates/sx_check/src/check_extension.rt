//! The steps of `check NAME`.

ghost use Rattle.std.specs.Prelude.{◌≡◌, ◌≤◌, ◌∷◌, [], ℕ, List, IfOk, Ok, length, map};
ghost use Rattle.std.specs.List.{AllByRecursion};
ghost use Rattle.sx_notation.specs.Language.{IsLanguage};
ghost use Rattle.sx_outside.specs.Told.{WhereTold};
ghost use Rattle.sx_steps.specs.Stop.{OnlyReads, IsNoFault, Does};
ghost use Rattle.sx_steps.specs.Work.{plan_of};
ghost use Rattle.sx_uses.specs.ExtensionFile.{extension_of, extension_file, IsHeaderStated};
ghost use Rattle.sx_uses.specs.ReadExtension.{ReadsFile};
ghost use Rattle.sx_accepting.specs.ExtendedLanguages.{base_of};
ghost use Rattle.sx_accepting.specs.ReadLanguage.{stated_of, HasText};
ghost use Rattle.sx_check.specs.CheckExtension as spec;

use crate::accepted_lines::accepted_work;
use crate::asked::Asked;
use crate::sought::Sought;
use std::alloc::Global;
use std::sync::ledger::Ledger;
use sx_accepting::{LanguageFile, extend_language, read_language_file};
use sx_extcheck::Budgets;
use sx_notation::Language;
use sx_outside::Shelf;
use sx_steps::{StepError, Work, with_suffix};
use sx_term::{NoMemory, Steps, Text};
use sx_uses::{ExtensionFile, read_extension_file, read_uses};

/// The steps from the files of all extensions that are reached.
fn check_all<L: Ledger>(
    asked: &Asked,
    language: &Language,
    files: &[ExtensionFile],
    steps: &mut Steps<L>,
) -> Result<Work, StepError>
    requires language { IsLanguage language.now }
    requires text { (name : List ℕ) × HasText name language.now }
    requires files { AllByRecursion IsHeaderStated (map extension_of files.now) }
    requires few { length files.now ≤ 256 }
    ensures step { Does plan_of (spec.ChecksAll asked.now.name.now asked.now.budgets
        (base_of language.now) (map extension_of files.now)) result steps.old steps.new }
    ensures no_fault { IsNoFault result }
{
    match extend_language(asked.alloc, language, files, asked.budgets, steps) {
        Ok(extended) => {
            let work = accepted_work(asked.alloc, asked.name, &extended);
            drop(extended);
            work
        }
        Err(e) => Err(e),
    }
}

/// From where the extensions are sought that this one, whose name is given, uses.
fn sought_by(alloc: Global, name: &Text, held: &ExtensionFile) -> Result<Sought, NoMemory>
    ensures roots { IfOk result (λ sought. sought.roots.items ≡ name.now ∷ []) }
    ensures language { IfOk result (λ sought. sought.language ≡ held.now.header.language) }
{
    let mut roots = Vec::new(alloc);
    roots.push(name.copy(alloc)?)?;
    let language = held.header.language.copy(alloc)?;
    Ok(Sought { roots, language })
}

/// The steps from the names from which extensions are sought.
fn check_reached<S: Shelf, L: Ledger>(
    asked: &Asked,
    held: ExtensionFile,
    sought: Sought,
    language: &Language,
    shelf: &mut S,
    steps: &mut Steps<L>,
) -> Result<Work, StepError>
    requires file { asked.now.file.now ≡ extension_file asked.now.name.now }
    requires language { IsLanguage language.now }
    requires text { (name : List ℕ) × HasText name language.now }
    requires stated { IsHeaderStated (extension_of held) }
    requires held { WhereTold (S.content shelf.now) (λ files.
        ReadsFile files held.header.name (Ok (extension_of held))) }
    requires roots { sought.roots.items ≡ asked.now.name.now ∷ [] }
    ensures step { WhereTold (S.content shelf.old)
        (λ files. Does plan_of (spec.ChecksReached asked.now.name.now asked.now.budgets files
        sought.language (base_of language.now)) result steps.old steps.new) }
    ensures reads { OnlyReads (S.content shelf.old) (S.content shelf.new)
        (S.read_faults shelf.old) (S.read_faults shelf.new)
        (S.write_faults shelf.old) (S.write_faults shelf.new) result }
{
    let Sought {
        roots,
        language: written_for,
    } = sought;
    let files = read_uses(
        asked.alloc,
        asked.file,
        &written_for,
        Some(held),
        roots,
        shelf,
    );
    drop(written_for);
    match files {
        Ok(files) => {
            let work = check_all(asked, language, &files, steps);
            drop(files);
            work
        }
        Err(e) => Err(e),
    }
}

/// The steps from the language of the extension's header.
fn check_over<S: Shelf, L: Ledger>(
    asked: &Asked,
    held: ExtensionFile,
    language: &LanguageFile,
    shelf: &mut S,
    steps: &mut Steps<L>,
) -> Result<Work, StepError>
    requires file { asked.now.file.now ≡ extension_file asked.now.name.now }
    requires language { IsLanguage language.now.language }
    requires text { (name : List ℕ) × HasText name language.now.language }
    requires stated { IsHeaderStated (extension_of held) }
    requires held { WhereTold (S.content shelf.now) (λ files.
        ReadsFile files held.header.name (Ok (extension_of held))) }
    ensures step { WhereTold (S.content shelf.old)
        (λ files. Does plan_of (spec.ChecksOver asked.now.name.now asked.now.budgets files
        held.header.language (stated_of language.now)) result steps.old steps.new) }
    ensures reads { OnlyReads (S.content shelf.old) (S.content shelf.new)
        (S.read_faults shelf.old) (S.read_faults shelf.new)
        (S.write_faults shelf.old) (S.write_faults shelf.new) result }
{
    match sought_by(asked.alloc, asked.name, &held) {
        Ok(sought) => check_reached(asked, held, sought, &language.language, shelf, steps),
        Err(_) => {
            drop(held);
            Err(StepError::Memory)
        }
    }
}

/// The steps from the extension's own file.
fn check_file<S: Shelf, L: Ledger>(
    asked: &Asked,
    held: ExtensionFile,
    shelf: &mut S,
    steps: &mut Steps<L>,
) -> Result<Work, StepError>
    requires file { asked.now.file.now ≡ extension_file asked.now.name.now }
    requires stated { IsHeaderStated (extension_of held) }
    requires held { WhereTold (S.content shelf.now) (λ files.
        ReadsFile files held.header.name (Ok (extension_of held))) }
    ensures step { WhereTold (S.content shelf.old)
        (λ files. Does plan_of (spec.ChecksFile asked.now.name.now asked.now.budgets files
        (extension_of held)) result steps.old steps.new) }
    ensures reads { OnlyReads (S.content shelf.old) (S.content shelf.new)
        (S.read_faults shelf.old) (S.read_faults shelf.new)
        (S.write_faults shelf.old) (S.write_faults shelf.new) result }
{
    match read_language_file(asked.alloc, &held.header.language, shelf) {
        Ok(language) => {
            let work = check_over(asked, held, &language, shelf, steps);
            drop(language);
            work
        }
        Err(e) => {
            drop(held);
            Err(e)
        }
    }
}

/// The steps of `check NAME`, with so many tries and nodes to spend for each rule: the header of
/// the extension's file, its language, the extensions that it uses, and then each of them is read
/// and accepted, itself last.
pub fn plan_check<S: Shelf, L: Ledger>(
    alloc: Global,
    name: &Text,
    budgets: Budgets,
    shelf: &mut S,
    steps: &mut Steps<L>,
) -> Result<Work, StepError>
    ensures step { WhereTold (S.content shelf.old) (λ files. Does plan_of
        (spec.ChecksExtension name.now budgets files) result steps.old steps.new) }
    ensures reads { OnlyReads (S.content shelf.old) (S.content shelf.new)
        (S.read_faults shelf.old) (S.read_faults shelf.new)
        (S.write_faults shelf.old) (S.write_faults shelf.new) result }
{
    let file = with_suffix(alloc, name, ".ext")?;
    match read_extension_file(alloc, name, shelf) {
        Ok(held) => {
            let asked = Asked {
                alloc,
                name,
                file: &file,
                budgets,
            };
            check_file(&asked, held, shelf, steps)
        }
        Err(e) => Err(e),
    }
}
