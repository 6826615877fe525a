//! What follows from rules so far.

ghost use Rattle.std.specs.Prelude.{◌<◌, length, OnOk, IfOk, IsTrue};
ghost use Rattle.std.specs.Prelude.{◌↔◌};
ghost use Rattle.sx_grammar.specs.Ranks.{HasRank, IsBlank, IsWaitingPut};
ghost use Rattle.sx_grammar.specs.Ranks.{IsWaitingTaken, IsLearnt};

use std::alloc::{AllocError, Global};

/// A rule that waits for the number that it needs at this place. The numbers that it needs before
/// have ranks.
#[derive(Clone, Copy)]
pub(crate) struct Waiting {
    pub(crate) rule: usize,
    pub(crate) place: usize,
}

/// The numbers that follow so far, and the rules that wait for others.
#[derive(Drop)]
pub(crate) struct Progress {
    /// The rank of each number that follows: its place in the order.
    pub(crate) ranks: Vec<Option<usize>>,
    /// The numbers that follow, each after those from which it follows.
    pub(crate) order: Vec<usize>,
    /// The rules that wait for each number.
    pub(crate) waiting: Vec<Vec<Waiting>>,
}

/// No number has a rank, and no rule waits.
pub(crate) fn blank(alloc: Global, bound: usize) -> Result<Progress, AllocError>
    ensures { IfOk result (λ p. IsBlank bound p) }
{
    let mut ranks = Vec::new(alloc);
    let mut waiting = Vec::new(alloc);
    for _ in 0..bound {
        ranks.push(None)?;
        waiting.push(Vec::new(alloc))?;
    }
    Ok(Progress {
        ranks,
        order: Vec::new(alloc),
        waiting,
    })
}

/// Whether the number has a rank.
pub(crate) fn has_rank(ranks: &[Option<usize>], number: usize) -> bool
    ensures { IsTrue result ↔ HasRank ranks.now number }
{
    number < ranks.len() && ranks[number].is_some()
}

/// Gives the number the next rank, where it has none.
pub(crate) fn learn(progress: &mut Progress, number: usize) -> Result<(), AllocError>
    requires { number < length progress.old.ranks.items }
    ensures { OnOk result (IsLearnt progress.old progress.new number) }
{
    if !has_rank(&progress.ranks, number) {
        let rank = progress.order.len();
        progress.order.push(number)?;
        progress.ranks[number] = Some(rank);
    }
    Ok(())
}

/// Lets a rule wait for the number.
pub(crate) fn wait(
    progress: &mut Progress,
    number: usize,
    waiting: Waiting,
) -> Result<(), AllocError>
    requires { number < length progress.old.waiting.items }
    ensures { OnOk result (IsWaitingPut progress.old progress.new number waiting) }
{
    progress.waiting[number].push(waiting)?;
    Ok(())
}

/// Takes a rule that waits for the number.
pub(crate) fn take_waiting(progress: &mut Progress, number: usize) -> Option<Waiting>
    requires { number < length progress.old.waiting.items }
    ensures { IsWaitingTaken progress.old progress.new number result }
{
    progress.waiting[number].pop()
}
