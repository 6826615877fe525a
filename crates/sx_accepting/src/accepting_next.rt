//! The extension that was read is accepted.

ghost use Rattle.std.specs.Prelude.{◌≡◌, map, Ok, Err, IfOk};
ghost use Rattle.sx_term.specs.Shapes.{shapes as shapes_in};
ghost use Rattle.sx_grammar.specs.Told.{shapes_of};
ghost use Rattle.sx_steps.specs.Stop.{Does, IsNoFault};
ghost use Rattle.sx_accepting.specs.AcceptanceStops.{CanTellError};
ghost use Rattle.sx_accepting.specs.ExtendedLanguages.{base_of, extended_data};
ghost use Rattle.sx_accepting.specs.Extending.{read_data, Accepts, WasRead, GoesOnBy, IsStopToldBy};
ghost use Rattle.sx_accepting.specs.Extending.{refusing_after};

use crate::acceptance_stops::bad_acceptance;
use crate::extended::Extended;
use crate::given::Given;
use crate::laws::{kept, refused_extensions_can_be_told};
use crate::own_grammars::OwnGrammars;
use crate::refusing::Refusing;
use crate::told_rules::{ToldRules, told_rules};
use std::sync::ledger::Ledger;
use sx_extcheck::{Refused, accept};
use sx_extension::ReadExtension;
use sx_grammar::Grammar;
use sx_steps::StepError;
use sx_term::{Steps, Text, Vars};

/// Why the extension in the file with this name is not accepted, whose rules have these names.
fn refusal(
    given: &Given,
    name: &Text,
    grammar: &Grammar,
    names: &[Text],
    vars: &[Vars],
    refused: Refused,
) -> StepError
    requires { CanTellError (refusing_after given.now.language.now grammar.now refused.set
        names.now vars.now) refused.error }
    ensures told { IsStopToldBy name.now (refusing_after given.now.language.now grammar.now
        refused.set names.now vars.now) refused.error result }
{
    let Refused { set, error } = refused;
    let refusing = Refusing {
        language: given.language,
        grammar,
        rules: set.rules(),
        names,
        vars,
    };
    let stop = bad_acceptance(given.alloc, name, &refusing, error);
    drop(set);
    match stop {
        Ok(stop) => StepError::Stopped(stop),
        Err(_) => StepError::Memory,
    }
}

/// The language with the extension that was read, where its rules, with these shapes and names,
/// are accepted.
fn accept_told<L: Ledger>(
    given: &Given,
    name: &Text,
    so_far: Extended,
    read: ReadExtension,
    told: ToldRules,
    steps: &mut Steps<L>,
) -> Result<Extended, StepError>
    requires read { WasRead given.now.language.now so_far read }
    requires shapes { shapes_in told.shapes ≡ shapes_of read.grammar.parts }
    requires names { told.names.items ≡ map (λ e. e.rule.name) read.extension.rules.items }
    ensures step { Does (extended_data given.now.language.now)
        (Accepts (base_of given.now.language.now) given.now.budgets name.now
        (extended_data given.now.language.now so_far) (read_data read)) result
        steps.old steps.new }
    ensures next { IfOk result (GoesOnBy given.now.language.now so_far) }
    ensures no_fault { IsNoFault result }
{
    kept(&so_far.accepted);
    refused_extensions_can_be_told();
    let ReadExtension {
        grammar,
        rule_grammar,
        extension,
        names: vars,
    } = read;
    let Extended {
        grammars,
        accepted: set,
        last: _,
    } = so_far;
    drop(grammars);
    let ToldRules { shapes, names } = told;
    let last = extension.rules.len();
    match accept(given.alloc, set, &shapes, extension, given.budgets, steps) {
        Ok(accepted) => {
            drop(names);
            drop(shapes);
            drop(vars);
            Ok(Extended {
                grammars: Some(OwnGrammars {
                    grammar,
                    rule_grammar,
                }),
                accepted,
                last,
            })
        }
        Err(refused) => {
            let error = refusal(given, name, &rule_grammar, &names, &vars, refused);
            drop(names);
            drop(shapes);
            drop(vars);
            drop(rule_grammar);
            drop(grammar);
            Err(error)
        }
    }
}

/// The language with the extension that was read from the file with this name, where it is
/// accepted. Its rules are checked one after the other against what is accepted so far; the first
/// that is refused stops it.
pub(crate) fn accept_next<L: Ledger>(
    given: &Given,
    name: &Text,
    so_far: Extended,
    read: ReadExtension,
    steps: &mut Steps<L>,
) -> Result<Extended, StepError>
    requires read { WasRead given.now.language.now so_far read }
    ensures step { Does (extended_data given.now.language.now)
        (Accepts (base_of given.now.language.now) given.now.budgets name.now
        (extended_data given.now.language.now so_far) (read_data read)) result
        steps.old steps.new }
    ensures next { IfOk result (GoesOnBy given.now.language.now so_far) }
    ensures no_fault { IsNoFault result }
{
    match told_rules(given.alloc, &read.grammar, &read.extension.rules) {
        Ok(told) => accept_told(given, name, so_far, read, told, steps),
        Err(_) => {
            drop(read);
            drop(so_far);
            Err(StepError::Memory)
        }
    }
}
