//! Terms that share, their patterns and what is apart, worked out by hand.

ghost use Rattle.std.specs.Prelude.{◌<◌, ◌≤◌, IfSome, length};
ghost use Rattle.sx_term.specs.Tree.{depth_of};
ghost use Rattle.sx_term.specs.Term.{tree};
ghost use Rattle.sx_arena.specs.Arena.{trees, IsArena};

use crate::asserts::assert_same;
use crate::terms::term;
use std::alloc::Global;
use sx_arena::{Arena, Binds, Chain, enter, fit, instances_apart, made};
use sx_term::Term;

/// The number of the term with this core text.
fn number(alloc: Global, arena: &mut Arena, core: &str) -> Option<usize>
    requires { IsArena arena.old }
    ensures arena { IfSome result (λ _. IsArena arena.new) }
    ensures within { IfSome result (λ i. i < length (trees arena.new)) }
{
    let term = term(alloc, core)?;
    enter(alloc, arena, &term).ok()
}

/// The depth and the size of the term with this core text, as its cell tells them.
fn measures(alloc: Global, core: &str) -> (u64, u64) {
    let mut arena = Arena::new(alloc);
    let told = match number(alloc, &mut arena, core) {
        Some(index) => {
            let cell = arena.cell(index);
            (cell.depth, cell.size)
        }
        None => (0, 0),
    };
    drop(arena);
    told
}

/// Whether the third of the terms has the number of the first, and whether the second has.
fn agree(alloc: Global, arena: &mut Arena, cores: [&str; 3]) -> Option<(bool, bool)>
    requires { IsArena arena.old }
{
    let first = number(alloc, arena, cores[0])?;
    let second = number(alloc, arena, cores[1])?;
    let third = number(alloc, arena, cores[2])?;
    Some((first == third, first == second))
}

/// Which of three terms agree in one arena, and how many terms it has then.
fn shared(alloc: Global, cores: [&str; 3]) -> (Option<(bool, bool)>, usize) {
    let mut arena = Arena::new(alloc);
    let agreed = agree(alloc, &mut arena, cores);
    let many = arena.cells.len();
    drop(arena);
    (agreed, many)
}

#[test]
fn equal_terms_have_one_number(rt: HostRuntime) {
    let alloc = rt.alloc();
    let one = "(2 (0 i1:f) (0 i1:g))";
    let turned = "(2 (0 i1:g) (0 i1:f))";
    let found = shared(alloc, [one, turned, one]);
    assert_same(&rt, &found, &(Some((true, false)), 6));
    assert_same(&rt, &measures(alloc, one), &(3, 5));
}

/// What a pattern makes of a term: 0 where it has the term not as an instance; or else 1 where the
/// other pattern then makes the wanted term, and 2 where it makes another.
fn made_as(
    alloc: Global,
    arena: &mut Arena,
    pattern: &Term,
    other: &Term,
    index: usize,
    wanted: usize,
) -> Option<u32>
    requires arena { IsArena arena.old }
    requires pattern { depth_of (tree pattern.now) ≤ 1000 }
    requires other { depth_of (tree other.now) ≤ 1000 }
    requires index { index < length (trees arena.old) }
{
    let mut binds = Binds::new(alloc);
    let told = match fit(arena, &mut binds, 0, pattern, index) {
        Err(_) => None,
        Ok(None) => Some(0),
        Ok(Some(env)) => match made(alloc, arena, &binds, env, other) {
            Ok(made) if made == wanted => Some(1),
            Ok(_) => Some(2),
            Err(_) => None,
        },
    };
    drop(binds);
    told
}

/// What comes of that in an arena with the wanted term and the term.
fn makes_in(
    alloc: Global,
    arena: &mut Arena,
    pattern: &Term,
    other: &Term,
    core: &str,
    wanted: &str,
) -> Option<u32>
    requires arena { IsArena arena.old }
    requires pattern { depth_of (tree pattern.now) ≤ 1000 }
    requires other { depth_of (tree other.now) ≤ 1000 }
{
    let wanted = number(alloc, arena, wanted)?;
    let index = number(alloc, arena, core)?;
    made_as(alloc, arena, pattern, other, index, wanted)
}

/// What comes of that in an arena of its own.
fn makes(alloc: Global, pattern: &str, core: &str, other: &str, wanted: &str) -> Option<u32> {
    let pattern = term(alloc, pattern)?;
    let other = term(alloc, other)?;
    let mut arena = Arena::new(alloc);
    let told = makes_in(alloc, &mut arena, &pattern, &other, core, wanted);
    drop(arena);
    told
}

#[test]
fn patterns(rt: HostRuntime) {
    let alloc = rt.alloc();
    let turned = makes(
        alloc,
        "(2 ?0 ?1)",
        "(2 i1:f n1:1)",
        "(3 ?1 ?0 ?1)",
        "(3 n1:1 i1:f n1:1)",
    );
    let different = makes(alloc, "(2 ?0 ?0)", "(2 i1:f i1:g)", "?0", "i1:f");
    let same = makes(alloc, "(2 ?0 ?0)", "(2 i1:f i1:f)", "?0", "i1:f");
    let label = makes(alloc, "(3 ?0)", "(2 i1:f)", "?0", "i1:f");
    let found = [turned, different, same, label];
    assert_same(&rt, &found, &[Some(1), Some(0), Some(1), Some(0)]);
}

/// Whether the terms are apart without hypotheses.
fn are_apart(alloc: Global, one: &str, other: &str) -> Option<bool> {
    let one = term(alloc, one)?;
    let other = term(alloc, other)?;
    let mut arena = Arena::new(alloc);
    let none = Binds::new(alloc);
    let chain = Chain {
        binds: &none,
        env: 0,
    };
    let told = instances_apart(alloc, &mut arena, &chain, &[], &one, &other).ok();
    drop(none);
    drop(arena);
    told
}

#[test]
fn lexemes_are_apart(rt: HostRuntime) {
    let alloc = rt.alloc();
    let found = [
        are_apart(alloc, "i1:f", "i1:g"),
        are_apart(alloc, "i1:f", "i1:f"),
        are_apart(alloc, "(0 i1:f)", "(0 i1:g)"),
    ];
    assert_same(&rt, &found, &[Some(true), Some(false), Some(false)]);
}
