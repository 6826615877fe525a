//! What is written of an extension that is accepted.

ghost use Rattle.std.specs.Prelude.{◌≡◌, ◌≤◌, IfOk, Ok, length};
ghost use Rattle.sx_rules.specs.Sets.{rules_in};
ghost use Rattle.sx_steps.specs.Stop.{Gives, IsNoFault};
ghost use Rattle.sx_steps.specs.Work.{plan_of};
ghost use Rattle.sx_accepting.specs.ExtendedLanguages.{set_data};
ghost use Rattle.sx_check.specs.CheckExtension as spec;

use crate::rule_lines::check_lines;
use std::alloc::Global;
use sx_accepting::Extended;
use sx_rewrite::Accepted;
use sx_steps::{StepError, Work};
use sx_term::{NoMemory, Text};

/// The lines of so many rules of the set, the last ones, and no file.
fn lines_of(alloc: Global, name: &Text, set: &Accepted, last: usize) -> Result<Work, NoMemory>
    requires { last ≤ length (rules_in set.now.rules) }
    ensures { IfOk result (λ work.
        plan_of work ≡ spec.plan_with name.now (set_data set.now) last) }
{
    let all = set.rules().rule_count();
    let count = last as u32;
    let lines = check_lines(alloc, set, name, all - count, count)?;
    Ok(Work {
        files: Vec::new(alloc),
        lines,
    })
}

/// The lines of the last extension, whose name this is, and no file.
pub(crate) fn accepted_work(
    alloc: Global,
    name: &Text,
    extended: &Extended,
) -> Result<Work, StepError>
    requires { extended.now.last ≤ length (rules_in extended.now.accepted.rules) }
    ensures step { Gives plan_of (λ plan. plan
        ≡ Ok (spec.plan_with name.now (set_data extended.now.accepted) extended.now.last))
        result }
    ensures no_fault { IsNoFault result }
{
    match lines_of(alloc, name, extended.accepted(), extended.last()) {
        Ok(work) => Ok(work),
        Err(_) => Err(StepError::Memory),
    }
}
