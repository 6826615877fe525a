//! The places of a form by what they are for.

ghost use Rattle.std.specs.Prelude.{◌≡◌, List, [], ◌∷◌, length, MatchOption};
ghost use Rattle.sx_directives.specs.declared.spelled.SpelledSort.{SpelledSort as SortOf};
ghost use Rattle.sx_outline.specs.Fitting.{sort_at, sorts_at};

use sx_directives::{FormSymbol, SpelledSort};
use sx_term::Role;

/// The sort of the symbol, where it is a place with this role.
fn sort_of(symbol: &FormSymbol, role: Role) -> Option<&SpelledSort>
    ensures { MatchOption result (sort_at role symbol.now ≡ [])
        (λ s. sort_at role symbol.now ≡ s.now ∷ []) }
{
    match symbol {
        FormSymbol::Lit(_) => None,
        FormSymbol::Place { role: other, sort } => {
            if *other == role {
                return Some(sort);
            }
            None
        }
    }
}

/// How many places have this role.
pub(crate) fn count_at(symbols: &[FormSymbol], role: Role) -> usize
    ensures { result ≡ length (sorts_at role symbols.now) }
{
    let mut count = 0;
    for i in 0..symbols.len() {
        if sort_of(&symbols[i], role).is_some() {
            count += 1;
        }
    }
    count
}

/// The sort of the first place with this role.
fn first_at(symbols: &[FormSymbol], role: Role) -> Option<&SpelledSort>
    ensures { MatchOption result (sorts_at role symbols.now ≡ [])
        (λ s. (more : List SortOf) × (sorts_at role symbols.now ≡ s.now ∷ more)) }
{
    for i in 0..symbols.len() {
        if let Some(sort) = sort_of(&symbols[i], role) {
            return Some(sort);
        }
    }
    None
}

/// The sort of the one place with this role, where there is just one.
pub(crate) fn one_at(symbols: &[FormSymbol], role: Role) -> Option<&SpelledSort>
    ensures { MatchOption result ((s : SortOf) → sorts_at role symbols.now ≡ s ∷ [] → ⊥)
        (λ s. sorts_at role symbols.now ≡ s.now ∷ []) }
{
    if count_at(symbols, role) != 1 {
        return None;
    }
    first_at(symbols, role)
}
