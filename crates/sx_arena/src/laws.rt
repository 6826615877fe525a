//! Laws of matching.

ghost use Rattle.sx_arena.specs.Laws.{MatchIsExact};

/// A match is the extension of the bindings that makes the term the pattern's instance, and none is
/// found just where there is none.
pub fn match_is_exact()
    ensures { MatchIsExact }
{}
