//! The steps of `verify NAME` over files that were compared.

ghost use Rattle.std.specs.Prelude.{◌≡◌, ◌≤◌, length};
ghost use Rattle.sx_grammar.specs.Tables.{literals_of};
ghost use Rattle.sx_outside.specs.Told.{WhereTold};
ghost use Rattle.sx_term.specs.declared.role.Role.TheVariants.{In, Sub, Out};
ghost use Rattle.sx_term.specs.Term.{tree};
ghost use Rattle.sx_rules.specs.Views.{goal as goal_of};
ghost use Rattle.sx_notation.specs.Language.{language_data};
ghost use Rattle.sx_typing.specs.Dialects.{IsDialectOf, dialect_of};
ghost use Rattle.sx_typing.specs.Growing.{unextended_dialect};
ghost use Rattle.sx_typing.specs.BodySource.{IsTermFor};
ghost use Rattle.sx_environment.specs.SeenFrom.{interfaces_of};
ghost use Rattle.sx_interface.specs.FreeNames.{AreFree};
ghost use Rattle.sx_steps.specs.Stop.{Gives, OnlyReads, IsNoFault};
ghost use Rattle.sx_steps.specs.Work.{plan_of};
ghost use Rattle.sx_accepting.specs.ReadLanguage.{stated_of};
ghost use Rattle.sx_verify.specs.AskedFiles.{HasFiles};
ghost use Rattle.sx_verify.specs.OverFiles.{IsOverFiles};
ghost use Rattle.sx_verify.specs.Replays.{IsMainGoal, IsTermOf};
ghost use Rattle.sx_verify.specs.VerifyModule as spec;
ghost use Rattle.sx_verify.specs.WrittenFiles.{written_of};

use crate::asked::Asked;
use crate::body_reading::read_subject;
use crate::list_reading::read_entries;
use crate::list_replaying::replay_list;
use crate::over::Over;
use crate::own_dialect::own_dialect;
use crate::signatures::keep_signature;
use crate::verified_lines::verified_work;
use sx_accepting::Extended;
use sx_environment::Surroundings;
use sx_headers::check_imports;
use sx_importing::make_environment;
use sx_outside::Shelf;
use sx_rules::{Entry, Goal};
use sx_steps::{StepError, Work};
use sx_term::Term;
use sx_typing::{BodySource, Dialect, main_goal};

/// The steps from the output of the derivation.
fn verify_output(asked: &Asked, over: &Over, nodes: u64, output: &Term) -> Result<Work, StepError>
    requires files { HasFiles asked.now }
    requires over { IsOverFiles over.now }
    requires output { IsTermOf (language_data over.now.language.now.language) Out
        (tree output.now) }
    ensures step { Gives plan_of (spec.VerifiesOutput asked.now.name.now
        (written_of over.now.written.now) (language_data over.now.language.now.language) nodes
        (tree output.now)) result }
    ensures no_fault { IsNoFault result }
{
    let language = &over.language.language;
    let kept = &over.written.interface.signature;
    match keep_signature(asked.alloc, asked.interface, language, kept, output) {
        Ok(()) => match verified_work(asked.alloc, asked.name, nodes) {
            Ok(work) => Ok(work),
            Err(_) => Err(StepError::Memory),
        },
        Err(e) => Err(e),
    }
}

/// The steps from the list.
fn verify_entries(
    asked: &Asked,
    over: &Over,
    goal: &Goal,
    list: &[Entry],
) -> Result<Work, StepError>
    requires files { HasFiles asked.now }
    requires over { IsOverFiles over.now }
    requires goal { IsMainGoal (language_data over.now.language.now.language)
        (goal_of goal.now) }
    requires few { length list.now ≤ 67108864 }
    ensures step { Gives plan_of (spec.VerifiesEntries asked.now.name.now
        (written_of over.now.written.now) (language_data over.now.language.now.language)
        (goal_of goal.now) list.now) result }
    ensures no_fault { IsNoFault result }
{
    let language = &over.language.language;
    match replay_list(asked.alloc, asked.list, language, goal, list) {
        Ok(output) => verify_output(asked, over, list.len() as u64, &output),
        Err(e) => Err(e),
    }
}

/// The steps from the main goal.
fn verify_list<S: Shelf>(
    asked: &Asked,
    over: &Over,
    goal: &Goal,
    shelf: &mut S,
) -> Result<Work, StepError>
    requires files { HasFiles asked.now }
    requires over { IsOverFiles over.now }
    requires goal { IsMainGoal (language_data over.now.language.now.language)
        (goal_of goal.now) }
    ensures step { WhereTold (S.content shelf.old)
        (λ files. Gives plan_of (spec.VerifiesList asked.now.name.now files
        (written_of over.now.written.now) (language_data over.now.language.now.language)
        (goal_of goal.now)) result) }
    ensures reads { OnlyReads (S.content shelf.old) (S.content shelf.new)
        (S.read_faults shelf.old) (S.read_faults shelf.new)
        (S.write_faults shelf.old) (S.write_faults shelf.new) result }
{
    let rules = &over.language.language.rules;
    match read_entries(asked.alloc, asked.list, rules, shelf) {
        Ok(list) => verify_entries(asked, over, goal, &list),
        Err(e) => Err(e),
    }
}

/// The steps from the term of the body.
fn verify_subject<S: Shelf>(
    asked: &Asked,
    over: &Over,
    environment: &Term,
    subject: &Term,
    shelf: &mut S,
) -> Result<Work, StepError>
    requires files { HasFiles asked.now }
    requires over { IsOverFiles over.now }
    requires environment { IsTermOf (language_data over.now.language.now.language) In
        (tree environment.now) }
    requires subject { IsTermOf (language_data over.now.language.now.language) Sub
        (tree subject.now) }
    ensures step { WhereTold (S.content shelf.old)
        (λ files. Gives plan_of (spec.VerifiesSubject asked.now.name.now files
        (written_of over.now.written.now) (language_data over.now.language.now.language)
        (tree environment.now) (tree subject.now)) result) }
    ensures reads { OnlyReads (S.content shelf.old) (S.content shelf.new)
        (S.read_faults shelf.old) (S.read_faults shelf.new)
        (S.write_faults shelf.old) (S.write_faults shelf.new) result }
{
    let language = &over.language.language;
    match main_goal(asked.alloc, language, environment, subject) {
        Ok(goal) => {
            let work = verify_list(asked, over, &goal, shelf);
            drop(goal);
            work
        }
        Err(_) => Err(StepError::Memory),
    }
}

/// The steps from the environment.
fn verify_body<S: Shelf>(
    asked: &Asked,
    over: &Over,
    dialect: &Dialect,
    environment: &Term,
    shelf: &mut S,
) -> Result<Work, StepError>
    requires files { HasFiles asked.now }
    requires over { IsOverFiles over.now }
    requires dialect { IsDialectOf dialect.now }
    requires bare { dialect_of dialect.now ≡
        unextended_dialect (language_data over.now.language.now.language) }
    requires environment { IsTermFor (dialect_of dialect.now) In (tree environment.now) }
    ensures step { WhereTold (S.content shelf.old)
        (λ files. Gives plan_of (spec.VerifiesBody asked.now.name.now files
        (written_of over.now.written.now) (stated_of over.now.language.now)
        (tree environment.now)) result) }
    ensures reads { OnlyReads (S.content shelf.old) (S.content shelf.new)
        (S.read_faults shelf.old) (S.read_faults shelf.new)
        (S.write_faults shelf.old) (S.write_faults shelf.new) result }
{
    let source = BodySource {
        dialect: *dialect,
        header: &over.written.base.header,
        bytes: &over.written.base.bytes,
        environment,
    };
    match read_subject(asked.alloc, asked.base, &source) {
        Ok(subject) => verify_subject(asked, over, environment, &subject, shelf),
        Err(e) => Err(e),
    }
}

/// The steps from the language as a dialect.
fn verify_dialect<S: Shelf>(
    asked: &Asked,
    over: &Over,
    dialect: &Dialect,
    shelf: &mut S,
) -> Result<Work, StepError>
    requires files { HasFiles asked.now }
    requires over { IsOverFiles over.now }
    requires dialect { IsDialectOf dialect.now }
    requires bare { dialect_of dialect.now ≡
        unextended_dialect (language_data over.now.language.now.language) }
    requires same { dialect.now.language.now ≡ over.now.language.now.language }
    requires free { AreFree (literals_of over.now.language.now.language.grammar.parts)
        over.now.written.now.base.header.imports.items }
    ensures step { WhereTold (S.content shelf.old)
        (λ files. Gives plan_of (spec.VerifiesOver asked.now.name.now files
        (written_of over.now.written.now) (stated_of over.now.language.now)
        (interfaces_of over.now.imports.now)) result) }
    ensures reads { OnlyReads (S.content shelf.old) (S.content shelf.new)
        (S.read_faults shelf.old) (S.read_faults shelf.new)
        (S.write_faults shelf.old) (S.write_faults shelf.new) result }
{
    let given = Surroundings {
        dialect: *dialect,
        digest: &over.language.digest,
        uses: &[],
    };
    match make_environment(asked.alloc, asked.base, &given, over.imports) {
        Ok(environment) => {
            let work = verify_body(asked, over, dialect, &environment, shelf);
            drop(environment);
            work
        }
        Err(e) => Err(e),
    }
}

/// The steps from names of imports that are no literals.
fn verify_free<S: Shelf>(asked: &Asked, over: &Over, shelf: &mut S) -> Result<Work, StepError>
    requires files { HasFiles asked.now }
    requires over { IsOverFiles over.now }
    requires free { AreFree (literals_of over.now.language.now.language.grammar.parts)
        over.now.written.now.base.header.imports.items }
    ensures step { WhereTold (S.content shelf.old)
        (λ files. Gives plan_of (spec.VerifiesOver asked.now.name.now files
        (written_of over.now.written.now) (stated_of over.now.language.now)
        (interfaces_of over.now.imports.now)) result) }
    ensures reads { OnlyReads (S.content shelf.old) (S.content shelf.new)
        (S.read_faults shelf.old) (S.read_faults shelf.new)
        (S.write_faults shelf.old) (S.write_faults shelf.new) result }
{
    let language = &over.language.language;
    match Extended::begin(asked.alloc, language) {
        Ok(extended) => {
            let dialect = own_dialect(language, &extended);
            let work = verify_dialect(asked, over, &dialect, shelf);
            drop(extended);
            work
        }
        Err(_) => Err(StepError::Memory),
    }
}

/// The steps from the language and the interfaces of the imports.
pub(crate) fn verify_names<S: Shelf>(
    asked: &Asked,
    over: &Over,
    shelf: &mut S,
) -> Result<Work, StepError>
    requires files { HasFiles asked.now }
    requires over { IsOverFiles over.now }
    ensures step { WhereTold (S.content shelf.old)
        (λ files. Gives plan_of (spec.VerifiesNames asked.now.name.now files
        (written_of over.now.written.now) (interfaces_of over.now.imports.now)
        (stated_of over.now.language.now)) result) }
    ensures reads { OnlyReads (S.content shelf.old) (S.content shelf.new)
        (S.read_faults shelf.old) (S.read_faults shelf.new)
        (S.write_faults shelf.old) (S.write_faults shelf.new) result }
{
    let grammar = &over.language.language.grammar;
    match check_imports(asked.alloc, asked.base, &over.written.base, grammar) {
        Ok(()) => verify_free(asked, over, shelf),
        Err(e) => Err(e),
    }
}
