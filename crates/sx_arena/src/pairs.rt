//! Terms that are to be apart.

ghost use Rattle.std.specs.Prelude.{◌≡◌, ◌<◌, ◌≤◌, ◌&&◌, IfOk, nat_eq, [], length};
ghost use Rattle.sx_term.specs.Tree.{depth_of};
ghost use Rattle.sx_term.specs.Term.{tree};
ghost use Rattle.sx_rules.specs.Instances.{instance};
ghost use Rattle.sx_arena.specs.Matching.{filled};
ghost use Rattle.sx_arena.specs.Limits.{are_apart};
ghost use Rattle.sx_arena.specs.Binds.{IsBinds, env_of};
ghost use Rattle.sx_arena.specs.Arena.{trees, tree_at, IsArena};
ghost use Rattle.sx_arena.specs.Pairs.{pairs_of, ArePairs, IsTruthTold};
ghost use Rattle.sx_term.specs.Limits.{most_depth};

use crate::arena::Arena;
use crate::chain::Chain;
use crate::pattern::made;
use crate::shape::Shape;
use std::alloc::Global;
use sx_term::{NoMemory, Term};

/// Two terms that are given to be apart.
#[derive(Clone, Copy)]
pub struct Pair {
    pub first: usize,
    pub second: usize,
}

/// Whether the pair is of these two, in this order.
fn pairs_up(pair: &Pair, first: usize, second: usize) -> bool
    ensures { result ≡ (nat_eq pair.now.first first && nat_eq pair.now.second second) }
{
    pair.first == first && pair.second == second
}

/// Whether the terms are a pair of the hypotheses, either way round, or two different lexemes.
pub fn apart(arena: &Arena, pairs: &[Pair], first: usize, second: usize) -> bool
    requires arena { IsArena arena.now }
    requires pairs { ArePairs (length (trees arena.now)) pairs.now }
    requires first { first < length (trees arena.now) }
    requires second { second < length (trees arena.now) }
    ensures { result ≡ are_apart
        (record { judgements = []; pairs = pairs_of (trees arena.now) pairs.now })
        (tree_at (trees arena.now) first) (tree_at (trees arena.now) second) }
{
    for pair in pairs {
        if pairs_up(pair, first, second) {
            return true;
        }
        if pairs_up(pair, second, first) {
            return true;
        }
    }
    if first == second {
        return false;
    }
    match &arena.cell(first).shape {
        Shape::Lex { kind: _, text: _ } => match &arena.cell(second).shape {
            Shape::Lex { kind: _, text: _ } => true,
            _ => false,
        },
        _ => false,
    }
}

/// Whether the instances of the two patterns are apart.
pub fn instances_apart(
    alloc: Global,
    arena: &mut Arena,
    chain: &Chain,
    pairs: &[Pair],
    first: &Term,
    second: &Term,
) -> Result<bool, NoMemory>
    requires first { depth_of (tree first.now) ≤ most_depth }
    requires second { depth_of (tree second.now) ≤ most_depth }
    requires arena { IsArena arena.old }
    requires binds { IsBinds (trees arena.old) chain.now.binds.now }
    requires env { chain.now.env ≤ length chain.now.binds.now.cells.items }
    requires pairs { ArePairs (length (trees arena.old)) pairs.now }
    ensures { IfOk result (λ b. IsTruthTold arena.old arena.new b
        (are_apart (record { judgements = []; pairs = pairs_of (trees arena.old) pairs.now })
        (instance (filled (env_of (trees arena.old) chain.now)) (tree first.now))
        (instance (filled (env_of (trees arena.old) chain.now)) (tree second.now)))) }
{
    let left = made(alloc, arena, chain.binds, chain.env, first)?;
    let right = made(alloc, arena, chain.binds, chain.env, second)?;
    Ok(apart(arena, pairs, left, right))
}
