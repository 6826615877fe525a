//! What the checker keeps while it reads a list.

ghost use Rattle.std.specs.Prelude.{◌≡◌, ◌≤◌, List, [], IfOk, length, map};
ghost use Rattle.sx_term.specs.Term.{tree};
ghost use Rattle.sx_rules.specs.Deep.{AreShallow};
ghost use Rattle.sx_rules.specs.Rules.{Rule};
ghost use Rattle.sx_arena.specs.Views.{judgement_of, set_modes};
ghost use Rattle.sx_arena.specs.Arena.{IsArena, trees};
ghost use Rattle.sx_arena.specs.Binds.{IsBinds, env_at};
ghost use Rattle.sx_replay.specs.Reader.{IsReplayReader, AreTermsMade, reader_envs, places_made};
ghost use Rattle.sx_replay.specs.Limits.{nothing_noted};

use crate::noted::{Noted, noted_after};
use std::alloc::Global;
use sx_arena::{Arena, Binds, Side, make_places};
use sx_rules::{Judgement, RuleSet};
use sx_term::NoMemory;

/// A rule that waits for one of its premises, with the chain of its bindings, and the numbers of
/// all bindings and of all terms when it began to wait.
#[derive(Clone, Copy)]
pub struct Waiting {
    pub rule: u32,
    pub premise: usize,
    pub env: usize,
    pub mark: usize,
    pub terms: usize,
}

/// The terms and the bindings made so far, the rules in work from the first goal on, the first
/// terms that pass a limit, and the number of the terms that stay to the end, those of the problem.
#[derive(Drop)]
pub struct Reader {
    pub arena: Arena,
    pub binds: Binds,
    pub waiting: Vec<Waiting>,
    pub noted: Noted,
    pub base: usize,
}

impl Reader {
    /// Nothing yet.
    pub fn new(alloc: Global) -> Reader
        ensures reader { (rules : List Rule) → IsReplayReader rules result }
        ensures none { result.waiting.items ≡ [] }
        ensures noted { result.noted ≡ nothing_noted }
    {
        Reader {
            arena: Arena::new(alloc),
            binds: Binds::new(alloc),
            waiting: Vec::new(alloc),
            noted: Noted {
                deep: None,
                big: None,
            },
            base: 0,
        }
    }

    /// The number of bindings.
    pub fn mark(&self) -> usize
        ensures { result ≡ length self.now.binds.cells.items }
    {
        self.binds.cells.len()
    }
}

/// The outputs of the judgement, or else its inputs, under a chain of bindings, made and measured.
pub fn make(
    alloc: Global,
    rules: &RuleSet,
    judgement: &Judgement,
    outputs: bool,
    reader: &mut Reader,
    env: usize,
) -> Result<Vec<usize>, NoMemory>
    requires shallow { AreShallow (map tree judgement.now.places.items) }
    requires arena { IsArena reader.old.arena }
    requires binds { IsBinds (trees reader.old.arena) reader.old.binds }
    requires env { env ≤ length reader.old.binds.cells.items }
    ensures { IfOk result (λ r. AreTermsMade reader.old reader.new
        (places_made (set_modes rules.now) outputs (env_at (reader_envs reader.old) env)
        (judgement_of judgement.now)) r.items) }
{
    let side = Side::new(rules, judgement, outputs);
    let made = make_places(alloc, &mut reader.arena, &reader.binds, env, &side)?;
    reader.noted = noted_after(&reader.arena, &made, reader.noted);
    Ok(made)
}
