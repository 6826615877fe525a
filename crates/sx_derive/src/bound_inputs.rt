//! Whether a chain binds the variables of a judgement's inputs.

ghost use Rattle.std.specs.Prelude.{◌≡◌, ◌≤◌, List, IfSome, length, map};
ghost use Rattle.sx_term.specs.Term.{tree};
ghost use Rattle.sx_term.specs.Tree.{Tree, depth_of};
ghost use Rattle.sx_term.specs.Limits.{most_depth};
ghost use Rattle.sx_rules.specs.Deep.{AreShallow, PremisesAreShallow};
ghost use Rattle.sx_rules.specs.Modes.{inputs_of};
ghost use Rattle.sx_arena.specs.Binds.{envs, env_at, IsBinds};
ghost use Rattle.sx_arena.specs.Views.{set_modes, premise_of, judgement_of};
ghost use Rattle.sx_derive.specs.Binding.{binds_term, binds_terms, IsBoundPremise};
ghost use Rattle.sx_derive.specs.Givens.{IsStoreOf};
ghost use Rattle.sx_derive.specs.Store.{store_envs};

use crate::given::Given;
use crate::store::Store;
use sx_arena::{Binds, roles};
use sx_rules::{Judgement, Premise, is_output};
use sx_term::Term;

/// Whether the chain binds each variable of the term.
fn is_bound(binds: &Binds, env: usize, term: &Term) -> bool
    requires depth { depth_of (tree term.now) ≤ most_depth }
    requires binds { (ts : List Tree) × IsBinds ts binds.now }
    requires env { env ≤ length binds.now.cells.items }
    ensures { (ts : List Tree) → IsBinds ts binds.now →
        result ≡ binds_term (env_at (envs ts binds.now) env) (tree term.now) }
{
    match term {
        Term::Node { label: _, kids } => {
            for kid in kids {
                if !is_bound(binds, env, kid) {
                    return false;
                }
            }
            true
        }
        Term::Lex { kind: _, text: _ } => true,
        Term::Var(variable) => binds.find(env, *variable as usize).is_some(),
    }
}

/// Whether the chain binds each variable of the judgement's inputs.
fn has_bound_inputs(given: &Given, store: &Store, judgement: &Judgement, env: usize) -> bool
    requires shallow { AreShallow (map tree judgement.now.places.items) }
    requires store { IsStoreOf given.now store.now }
    requires env { env ≤ length store.now.binds.cells.items }
    ensures { result ≡ binds_terms (env_at (store_envs store.now) env)
        (inputs_of (set_modes given.now.rules.now) (judgement_of judgement.now)) }
{
    let places = roles(given.rules, judgement.form);
    let terms = &judgement.places;
    for i in 0..terms.len() {
        if is_output(places, i) {
            continue;
        }
        if !is_bound(&store.binds, env, &terms[i]) {
            return false;
        }
    }
    true
}

/// The judgement of the premise that is noted, where the chain binds each variable of its inputs.
pub(crate) fn bound_premise<'a>(
    given: &Given,
    store: &Store,
    premises: &'a [Premise],
    env: usize,
    noted: Option<usize>,
) -> Option<&'a Judgement>
    requires shallow { PremisesAreShallow (map premise_of premises.now) }
    requires store { IsStoreOf given.now store.now }
    requires env { env ≤ length store.now.binds.cells.items }
    ensures { IfSome result (λ j. IsBoundPremise (set_modes given.entry.now.rules.now)
        (map premise_of premises.entry.now) (env_at (store_envs store.entry.now) env) noted
        (judgement_of j.now)) }
{
    match premises.get(noted?) {
        Some(Premise::Holds(judgement)) => {
            if has_bound_inputs(given, store, judgement, env) {
                Some(judgement)
            } else {
                None
            }
        }
        _ => None,
    }
}
