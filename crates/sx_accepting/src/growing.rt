//! Extensions of a language are read and accepted, one after the other.

ghost use Rattle.std.specs.Prelude.{◌≡◌, ◌≤◌, ℕ, List, length, map, IfOk};
ghost use Rattle.std.specs.List.{AllByRecursion};
ghost use Rattle.sx_notation.specs.Language.{IsLanguage, language_data};
ghost use Rattle.sx_steps.specs.Stop.{Does, IsNoFault};
ghost use Rattle.sx_uses.specs.ExtensionFile.{extension_of, extension_file, IsHeaderStated};
ghost use Rattle.sx_accepting.specs.ExtendedLanguages.{base_of, extended_data, unextended};
ghost use Rattle.sx_accepting.specs.ExtendedLanguages.{CanExtendBy};
ghost use Rattle.sx_accepting.specs.Extending.{ExtendsBy, ExtendsLanguage, GoesOnBy};
ghost use Rattle.sx_accepting.specs.ReadLanguage.{HasText};
ghost use Rattle.sx_term.specs.Limits.{most_bytes};

use crate::accepting_next::accept_next;
use crate::extended::Extended;
use crate::given::Given;
use crate::reading_next::read_next;
use std::alloc::Global;
use std::sync::ledger::Ledger;
use sx_extcheck::Budgets;
use sx_notation::Language;
use sx_steps::{StepError, with_suffix};
use sx_term::{Steps, Text};
use sx_uses::ExtensionFile;

/// The language with the extension in the file with this name after those so far.
fn extend_by<L: Ledger>(
    given: &Given,
    name: &Text,
    so_far: Extended,
    file: &ExtensionFile,
    steps: &mut Steps<L>,
) -> Result<Extended, StepError>
    requires name { name.now ≡ extension_file file.now.header.name }
    requires can { (files : ℕ) × CanExtendBy given.now.language.now so_far files }
    requires short { length file.now.bytes.items ≤ most_bytes }
    ensures step { Does (extended_data given.now.language.now)
        (ExtendsBy (base_of given.now.language.now) given.now.budgets (extension_of file.now)
        (extended_data given.now.language.now so_far)) result steps.old steps.new }
    ensures next { IfOk result (GoesOnBy given.now.language.now so_far) }
    ensures no_fault { IsNoFault result }
{
    match read_next(given, &so_far, file, name) {
        Ok(read) => accept_next(given, name, so_far, read, steps),
        Err(e) => {
            drop(so_far);
            Err(e)
        }
    }
}

/// The language with the extension in the file after those so far.
fn extend<L: Ledger>(
    given: &Given,
    so_far: Extended,
    file: &ExtensionFile,
    steps: &mut Steps<L>,
) -> Result<Extended, StepError>
    requires can { (files : ℕ) × CanExtendBy given.now.language.now so_far files }
    requires short { length file.now.bytes.items ≤ most_bytes }
    ensures step { Does (extended_data given.now.language.now)
        (ExtendsBy (base_of given.now.language.now) given.now.budgets (extension_of file.now)
        (extended_data given.now.language.now so_far)) result steps.old steps.new }
    ensures next { IfOk result (GoesOnBy given.now.language.now so_far) }
    ensures no_fault { IsNoFault result }
{
    match with_suffix(given.alloc, &file.header.name, ".ext") {
        Ok(name) => extend_by(given, &name, so_far, file, steps),
        Err(_) => {
            drop(so_far);
            Err(StepError::Memory)
        }
    }
}

/// The language with the extensions in these files, which are read and accepted in order, each
/// after all before it. The first that is refused ends it: it stops where the file states no
/// extension after those before it, or a rule of the extension is refused. Each try is counted in
/// `steps`, and for a rule at most `budgets.tries` are made.
pub fn extend_language<L: Ledger>(
    alloc: Global,
    language: &Language,
    files: &[ExtensionFile],
    budgets: Budgets,
    steps: &mut Steps<L>,
) -> Result<Extended, StepError>
    requires language { IsLanguage language.now }
    requires text { (name : List ℕ) × HasText name language.now }
    requires files { AllByRecursion IsHeaderStated (map extension_of files.now) }
    requires few { length files.now ≤ 256 }
    ensures step { Does (extended_data language.now) (ExtendsLanguage (base_of language.now) budgets
        (map extension_of files.now) (unextended (language_data language.now))) result
        steps.old steps.new }
    ensures can { IfOk result (λ x. CanExtendBy language.now x 0) }
    ensures no_fault { IsNoFault result }
{
    let given = Given {
        alloc,
        language,
        budgets,
    };
    let mut so_far = Extended::begin(alloc, language)?;
    for i in 0..files.len() {
        let file = &files[i];
        match extend(&given, so_far, file, steps) {
            Ok(next) => so_far = next,
            Err(e) => return Err(e),
        }
    }
    Ok(so_far)
}
