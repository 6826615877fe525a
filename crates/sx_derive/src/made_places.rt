//! The inputs and the outputs of a judgement under the bindings of a chain, by their numbers.

ghost use Rattle.std.specs.Prelude.{◌≤◌, IfOk, length, map};
ghost use Rattle.sx_term.specs.Term.{tree};
ghost use Rattle.sx_rules.specs.Deep.{AreShallow};
ghost use Rattle.sx_rules.specs.Modes.{inputs_of, outputs_of};
ghost use Rattle.sx_rules.specs.Rules.{judgement_instance};
ghost use Rattle.sx_arena.specs.Binds.{env_at};
ghost use Rattle.sx_arena.specs.Matching.{filled};
ghost use Rattle.sx_arena.specs.Views.{set_modes, judgement_of};
ghost use Rattle.sx_derive.specs.Givens.{IsStoreOf};
ghost use Rattle.sx_derive.specs.Store.{AreMadeInStore, store_envs};

use crate::given::Given;
use crate::store::Store;
use sx_arena::{Side, make_places};
use sx_rules::Judgement;
use sx_term::NoMemory;

/// The inputs of the judgement.
pub(crate) fn made_inputs(
    given: &Given,
    store: &mut Store,
    judgement: &Judgement,
    env: usize,
) -> Result<Vec<usize>, NoMemory>
    requires shallow { AreShallow (map tree judgement.now.places.items) }
    requires store { IsStoreOf given.now store.old }
    requires env { env ≤ length store.old.binds.cells.items }
    ensures { IfOk result (λ r. AreMadeInStore store.old store.new r.items
        (inputs_of (set_modes given.now.rules.now)
        (judgement_instance (filled (env_at (store_envs store.old) env))
        (judgement_of judgement.now)))) }
{
    let side = Side::new(given.rules, judgement, false);
    make_places(given.alloc, &mut store.arena, &store.binds, env, &side)
}

/// The outputs of the judgement.
pub(crate) fn made_outputs(
    given: &Given,
    store: &mut Store,
    judgement: &Judgement,
    env: usize,
) -> Result<Vec<usize>, NoMemory>
    requires shallow { AreShallow (map tree judgement.now.places.items) }
    requires store { IsStoreOf given.now store.old }
    requires env { env ≤ length store.old.binds.cells.items }
    ensures { IfOk result (λ r. AreMadeInStore store.old store.new r.items
        (outputs_of (set_modes given.now.rules.now)
        (judgement_instance (filled (env_at (store_envs store.old) env))
        (judgement_of judgement.now)))) }
{
    let side = Side::new(given.rules, judgement, true);
    make_places(given.alloc, &mut store.arena, &store.binds, env, &side)
}
