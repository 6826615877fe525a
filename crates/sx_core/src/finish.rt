//! The end of the reading of a core file.

ghost use Rattle.std.specs.Prelude.{◌≡◌, IfOk, map};
ghost use Rattle.sx_rules.specs.Deep.{RulesAreShallow};
ghost use Rattle.sx_rules.specs.Views as view;
ghost use Rattle.sx_core.specs.Rows.{sort_row};
ghost use Rattle.sx_core.specs.Machine as spec;
ghost use Rattle.sx_core.specs.Machine.{IsProblemMade, IsEnded};

use crate::error::{CoreFileError, bad_line};
use crate::form_table::FormTable;
use crate::found::Found;
use crate::problem::CoreProblem;
use crate::reader::Reader;
use crate::rows::SortRow;
use crate::sort_table::SortTable;
use crate::stage::Stage;
use std::alloc::Global;
use sx_lines::Kind;
use sx_rules::{Goal, Rule, RuleError, RuleSet};
use sx_term::{NoMemory, Text};

/// The names of the sorts.
fn names_of_sorts(alloc: Global, rows: &[SortRow]) -> Result<Vec<Text>, NoMemory>
    ensures { IfOk result (λ names. names.items ≡ map (λ row. row.name) (map sort_row rows.now)) }
{
    let mut names = Vec::new(alloc);
    for i in 0..rows.len() {
        names.push(rows[i].name.copy(alloc)?)?;
    }
    Ok(names)
}

/// A breach of the rules as a refusal of the file.
fn rule_error(e: RuleError) -> CoreFileError
    ensures { result ≡ spec.rule_error e }
{
    match e {
        RuleError::Memory => CoreFileError::Memory,
        RuleError::TooManyRules => CoreFileError::Rules(RuleError::TooManyRules),
        RuleError::TooManyVars(name) => CoreFileError::Rules(RuleError::TooManyVars(name)),
        RuleError::SameRule(name) => CoreFileError::Rules(RuleError::SameRule(name)),
        RuleError::SortDiffers(name) => CoreFileError::Rules(RuleError::SortDiffers(name)),
        RuleError::Discipline(name, part, premise) => {
            CoreFileError::Rules(RuleError::Discipline(name, part, premise))
        }
        RuleError::NotModed(name, variable) => {
            CoreFileError::Rules(RuleError::NotModed(name, variable))
        }
    }
}

/// The problem with these rules and this goal, where the rules are a rule set.
fn make_problem(
    alloc: Global,
    found: Found,
    rules: Vec<Rule>,
    goal: Goal,
) -> Result<CoreProblem, CoreFileError>
    requires { RulesAreShallow (map view.rule rules.items) }
    ensures { IsProblemMade found (map view.named rules.items) (view.goal goal) result }
{
    let Found {
        sorts,
        taken,
        con_names,
        cons,
        shapes,
        forms,
    } = found;
    let FormTable { names, forms } = forms;
    let SortTable {
        names: sort_names,
        rows,
    } = sorts;
    drop(taken);
    drop(con_names);
    drop(names);
    drop(sort_names);
    let named = names_of_sorts(alloc, &rows);
    drop(rows);
    let sorts = match named {
        Ok(names) => names,
        Err(_) => {
            drop(cons);
            drop(shapes);
            drop(forms);
            drop(rules);
            drop(goal);
            return Err(CoreFileError::Memory);
        }
    };
    let made = RuleSet::make(alloc, &shapes, forms, rules);
    drop(shapes);
    match made {
        Ok(rules) => Ok(CoreProblem {
            sorts,
            cons,
            rules,
            goal,
        }),
        Err(e) => {
            drop(sorts);
            drop(cons);
            drop(goal);
            Err(rule_error(e))
        }
    }
}

/// What comes of the reader where no line is left. A further line would have this number.
pub(crate) fn finish(
    alloc: Global,
    reader: Reader,
    number: u32,
) -> Result<CoreProblem, CoreFileError>
    requires { RulesAreShallow (map view.rule reader.rules.items) }
    ensures { IsEnded reader reader.stage number result }
{
    let Reader {
        found,
        rules,
        stage,
    } = reader;
    match stage {
        Stage::Start => {
            drop(found);
            drop(rules);
            Err(bad_line(number, Kind::Head))
        }
        Stage::Declaring | Stage::Between => {
            drop(found);
            drop(rules);
            Err(bad_line(number, Kind::Main))
        }
        Stage::Premising(open) => {
            drop(found);
            drop(rules);
            let line = open.line;
            drop(open);
            Err(bad_line(line, Kind::Unfinished))
        }
        Stage::Concluded(open, conclusion) => {
            drop(found);
            drop(rules);
            drop(conclusion);
            let line = open.line;
            drop(open);
            Err(bad_line(line, Kind::Unfinished))
        }
        Stage::Over(goal) => make_problem(alloc, found, rules, goal),
    }
}
