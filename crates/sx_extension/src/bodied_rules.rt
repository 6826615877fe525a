//! Rules with their bodies.

ghost use Rattle.std.specs.Prelude.{◌≡◌, length, map, option_map, IfOk};
ghost use Rattle.sx_term.specs.Term.{tree};
ghost use Rattle.sx_rules.specs.Views.{named};

use std::alloc::Global;
use sx_rewrite::ExtRule;
use sx_rules::Rule;
use sx_term::{NoMemory, Term};

/// The rules in order, each with its body.
pub(crate) fn with_bodies(
    alloc: Global,
    mut rules: Vec<Rule>,
    mut bodies: Vec<Option<Term>>,
) -> Result<Vec<ExtRule>, NoMemory>
    requires { length rules.items ≡ length bodies.items }
    ensures rules { IfOk result (λ es.
        map (λ e. named e.rule) es.items ≡ map named rules.items) }
    ensures bodies { IfOk result (λ es.
        map (λ e. option_map tree e.body) es.items ≡ map (option_map tree) bodies.items) }
{
    let mut joined = Vec::with_capacity(alloc, rules.len())?;
    while let Some(rule) = rules.pop() {
        let body = bodies.pop().flatten();
        joined.push(ExtRule { rule, body })?;
    }
    drop(bodies);
    drop(rules);
    joined.reverse();
    Ok(joined)
}
