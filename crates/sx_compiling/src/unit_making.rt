//! The steps that make the unit of one module.

ghost use Rattle.std.specs.Prelude.{◌≡◌, ◌≤◌, IfOk, length, map};
ghost use Rattle.std.specs.List.{AllByRecursion};
ghost use Rattle.sx_term.specs.Term.{tree};
ghost use Rattle.sx_term.specs.declared.role.Role.TheVariants.{In};
ghost use Rattle.sx_grammar.specs.Tables.{literals_of};
ghost use Rattle.sx_notation.specs.Language.{language_data};
ghost use Rattle.sx_typing.specs.Dialects.{IsDialectOf};
ghost use Rattle.sx_typing.specs.BodySource.{IsTermFor};
ghost use Rattle.sx_interface.specs.FreeNames.{AreFree};
ghost use Rattle.sx_unit.specs.Written.{unit_of};
ghost use Rattle.sx_environment.specs.SeenFrom.{seen_from};
ghost use Rattle.sx_outside.specs.Told.{WhereTold};
ghost use Rattle.sx_outside.specs.Views.{clean_files_of};
ghost use Rattle.sx_steps.specs.Stop.{OnlyReads, IsNoFault, Does};
ghost use Rattle.sx_uses.specs.ExtensionFile.{extension_of, IsHeaderStated};
ghost use Rattle.sx_accepting.specs.ExtendedLanguages.{extended_data};
ghost use Rattle.sx_dialects.specs.Dialects.{HasHistory};
ghost use Rattle.sx_compiling.specs.CanMake.{CanMake, HasDerivationList, given_of};
ghost use Rattle.sx_compiling.specs.Given.{seen_in};
ghost use Rattle.sx_compiling.specs.KeptFiles.{AreKeptOf};
ghost use Rattle.sx_compiling.specs.MakeUnit as spec;
ghost use Rattle.sx_term.specs.Limits.{most_bytes};

use crate::compile_module::compile_module;
use crate::extensions_reading::read_extensions;
use crate::given::Given;
use crate::use_marks::use_marks;
use std::alloc::Global;
use std::sync::ledger::Ledger;
use sx_accepting::{Extended, extend_language};
use sx_dialects::dialect;
use sx_environment::Surroundings;
use sx_extcheck::Budgets;
use sx_headers::check_imports;
use sx_importing::make_environment;
use sx_outside::{CleanShelf, Shelf};
use sx_steps::StepError;
use sx_term::{Steps, Term};
use sx_typing::BodySource;
use sx_unit::{Compiled, ModuleSource};
use sx_uses::ExtensionFile;

/// The unit of the module with this environment, in the dialect from which its imports are seen.
fn make_in<L: Ledger>(
    alloc: Global,
    given: &Given,
    seen: &Surroundings,
    environment: &Term,
    budgets: Budgets,
    steps: &mut Steps<L>,
) -> Result<Compiled, StepError>
    requires short { length given.now.source.now.bytes.items ≤ most_bytes }
    requires dialect { IsDialectOf seen.now.dialect }
    requires environment { IsTermFor (seen_from seen.now).dialect In (tree environment.now) }
    ensures step { Does unit_of (spec.MakesIn budgets (given_of given.now) (seen_from seen.now)
        (tree environment.now)) result steps.old steps.new }
    ensures list { IfOk result (HasDerivationList seen.now.dialect.language.now) }
    ensures no_fault { IsNoFault result }
{
    let module = ModuleSource {
        source: BodySource {
            dialect: seen.dialect,
            header: &given.source.header,
            bytes: &given.source.bytes,
            environment,
        },
        digest: seen.digest,
        uses: seen.uses,
        imports: given.imports,
    };
    compile_module(alloc, given.file, &module, budgets, steps)
}

/// The unit of the module in the dialect from which its imports are seen.
fn make_seen<L: Ledger>(
    alloc: Global,
    given: &Given,
    seen: &Surroundings,
    budgets: Budgets,
    steps: &mut Steps<L>,
) -> Result<Compiled, StepError>
    requires can { CanMake given.now }
    requires dialect { IsDialectOf seen.now.dialect }
    requires language { (seen_from seen.now).dialect.language ≡
        language_data given.now.language.now.language }
    requires free { AreFree (literals_of (given_of given.now).language.language.parts)
        given.now.source.now.header.imports.items }
    ensures step { Does unit_of (spec.MakesSeeing budgets (given_of given.now)
        (seen_from seen.now)) result steps.old steps.new }
    ensures list { IfOk result (HasDerivationList seen.now.dialect.language.now) }
    ensures no_fault { IsNoFault result }
{
    match make_environment(alloc, given.file, seen, given.imports) {
        Ok(environment) => {
            let unit = make_in(alloc, given, seen, &environment, budgets, steps);
            drop(environment);
            unit
        }
        Err(e) => Err(e),
    }
}

/// The unit of the module in the dialect that its language becomes by the extensions of these
/// files.
fn make_extended<L: Ledger>(
    alloc: Global,
    given: &Given,
    files: &[ExtensionFile],
    extended: &Extended,
    budgets: Budgets,
    steps: &mut Steps<L>,
) -> Result<Compiled, StepError>
    requires can { CanMake given.now }
    requires free { AreFree (literals_of (given_of given.now).language.language.parts)
        given.now.source.now.header.imports.items }
    requires extends { HasHistory given.now.language.now.language extended.now }
    ensures step { Does unit_of (spec.MakesSeeing budgets (given_of given.now)
        (seen_in (given_of given.now) (map extension_of files.now)
        (extended_data given.now.language.now.language extended.now))) result
        steps.old steps.new }
    ensures list { IfOk result (HasDerivationList given.now.language.now.language) }
    ensures no_fault { IsNoFault result }
{
    let uses = match use_marks(alloc, files) {
        Ok(uses) => uses,
        Err(_) => return Err(StepError::Memory),
    };
    let seen = Surroundings {
        dialect: dialect(&given.language.language, extended),
        digest: &given.language.digest,
        uses: &uses,
    };
    let unit = make_seen(alloc, given, &seen, budgets, steps);
    drop(uses);
    unit
}

/// The unit of the module with the extensions of these files, which are all that are reached.
fn make_with<L: Ledger>(
    alloc: Global,
    given: &Given,
    files: &[ExtensionFile],
    budgets: Budgets,
    steps: &mut Steps<L>,
) -> Result<Compiled, StepError>
    requires can { CanMake given.now }
    requires free { AreFree (literals_of (given_of given.now).language.language.parts)
        given.now.source.now.header.imports.items }
    requires files { AllByRecursion IsHeaderStated (map extension_of files.now) }
    requires few { length files.now ≤ 256 }
    ensures step { Does unit_of (spec.MakesExtended budgets (given_of given.now)
        (map extension_of files.now)) result steps.old steps.new }
    ensures list { IfOk result (HasDerivationList given.now.language.now.language) }
    ensures no_fault { IsNoFault result }
{
    match extend_language(alloc, &given.language.language, files, budgets, steps) {
        Ok(extended) => {
            let unit = make_extended(alloc, given, files, &extended, budgets, steps);
            drop(extended);
            unit
        }
        Err(e) => Err(e),
    }
}

/// The unit of the module with the extensions that are reached from those that it uses.
fn make_reached<S: Shelf, L: Ledger>(
    alloc: Global,
    given: &Given,
    kept: &mut CleanShelf,
    budgets: Budgets,
    shelf: &mut S,
    steps: &mut Steps<L>,
) -> Result<Compiled, StepError>
    requires can { CanMake given.now }
    requires free { AreFree (literals_of (given_of given.now).language.language.parts)
        given.now.source.now.header.imports.items }
    requires kept { WhereTold (S.content shelf.old) (AreKeptOf (clean_files_of kept.old)) }
    ensures step { WhereTold (S.content shelf.old) (λ files. Does unit_of
        (spec.MakesReached budgets files (given_of given.now)) result steps.old steps.new) }
    ensures list { IfOk result (HasDerivationList given.now.language.now.language) }
    ensures kept { WhereTold (S.content shelf.old) (AreKeptOf (clean_files_of kept.new)) }
    ensures reads { OnlyReads (S.content shelf.old) (S.content shelf.new)
        (S.read_faults shelf.old) (S.read_faults shelf.new)
        (S.write_faults shelf.old) (S.write_faults shelf.new) result }
{
    match read_extensions(alloc, given, kept, shelf) {
        Ok(files) => {
            let unit = make_with(alloc, given, &files, budgets, steps);
            drop(files);
            unit
        }
        Err(e) => Err(e),
    }
}

/// The unit of one module of several, as `make_unit` makes it. Files of extensions that are kept
/// are not read from the shelf, and those that are read are kept for the modules after it.
pub fn make_unit_of_several<S: Shelf, L: Ledger>(
    alloc: Global,
    given: &Given,
    kept: &mut CleanShelf,
    budgets: Budgets,
    shelf: &mut S,
    steps: &mut Steps<L>,
) -> Result<Compiled, StepError>
    requires can { CanMake given.now }
    requires kept { WhereTold (S.content shelf.old) (AreKeptOf (clean_files_of kept.old)) }
    ensures step { WhereTold (S.content shelf.old) (λ files. Does unit_of
        (spec.MakesUnit budgets files (given_of given.now)) result steps.old steps.new) }
    ensures list { IfOk result (HasDerivationList given.now.language.now.language) }
    ensures kept { WhereTold (S.content shelf.old) (AreKeptOf (clean_files_of kept.new)) }
    ensures reads { OnlyReads (S.content shelf.old) (S.content shelf.new)
        (S.read_faults shelf.old) (S.read_faults shelf.new)
        (S.write_faults shelf.old) (S.write_faults shelf.new) result }
{
    match check_imports(
        alloc,
        given.file,
        given.source,
        &given.language.language.grammar,
    ) {
        Ok(()) => make_reached(alloc, given, kept, budgets, shelf, steps),
        Err(e) => Err(e),
    }
}

/// The unit of the module, with so many tries to spend for each walk and so many nodes for each
/// derivation that is lowered. No import may have a literal of the language as its name; then the
/// headers of the extensions that are reached by `use` lines are read, and each extension is read
/// and accepted after all before it; the environment of the imports is made, as they are seen from
/// the dialect that the language has become; and the module is compiled in it. The first refusal is
/// answered.
///
/// The header is that of the file, which has at most 262,144 bytes; the language is the one that it
/// names, as a text states it; and the imports are those that it names, in order.
pub fn make_unit<S: Shelf, L: Ledger>(
    alloc: Global,
    given: &Given,
    budgets: Budgets,
    shelf: &mut S,
    steps: &mut Steps<L>,
) -> Result<Compiled, StepError>
    requires { CanMake given.now }
    ensures step { WhereTold (S.content shelf.old) (λ files. Does unit_of
        (spec.MakesUnit budgets files (given_of given.now)) result steps.old steps.new) }
    ensures list { IfOk result (HasDerivationList given.now.language.now.language) }
    ensures reads { OnlyReads (S.content shelf.old) (S.content shelf.new)
        (S.read_faults shelf.old) (S.read_faults shelf.new)
        (S.write_faults shelf.old) (S.write_faults shelf.new) result }
{
    let mut kept = CleanShelf::new(alloc);
    let unit = make_unit_of_several(alloc, given, &mut kept, budgets, shelf, steps);
    drop(kept);
    unit
}
