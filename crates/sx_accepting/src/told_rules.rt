//! What an extension's rules are checked with, and told by.

ghost use Rattle.std.specs.Prelude.{◌≡◌, map, IfOk};
ghost use Rattle.sx_term.specs.Shapes.{shapes as shapes_in};
ghost use Rattle.sx_grammar.specs.Told.{shapes_of};

use std::alloc::Global;
use sx_grammar::Grammar;
use sx_rewrite::ExtRule;
use sx_term::{NoMemory, Shapes, Text};

/// The shapes of the constructors of an extension's rules, and the names of the rules.
#[derive(Drop)]
pub(crate) struct ToldRules {
    pub(crate) shapes: Shapes,
    pub(crate) names: Vec<Text>,
}

/// The names of the rules.
fn rule_names(alloc: Global, rules: &[ExtRule]) -> Result<Vec<Text>, NoMemory>
    ensures { IfOk result (λ names. names.items ≡ map (λ e. e.rule.name) rules.now) }
{
    let mut names = Vec::new(alloc);
    for ext in rules {
        names.push(ext.rule.name.copy(alloc)?)?;
    }
    Ok(names)
}

/// The shapes of the grammar, and the names of the rules.
pub(crate) fn told_rules(
    alloc: Global,
    grammar: &Grammar,
    rules: &[ExtRule],
) -> Result<ToldRules, NoMemory>
    ensures shapes { IfOk result (λ told. shapes_in told.shapes ≡ shapes_of grammar.now.parts) }
    ensures names { IfOk result (λ told. told.names.items ≡ map (λ e. e.rule.name) rules.now) }
{
    let shapes = grammar.shapes(alloc)?;
    match rule_names(alloc, rules) {
        Ok(names) => Ok(ToldRules { shapes, names }),
        Err(e) => {
            drop(shapes);
            Err(e)
        }
    }
}
