//! The terms of a line of a core file.

ghost use Rattle.std.specs.Prelude.{◌≡◌, [], ◌∷◌, map, MatchResult};
ghost use Rattle.sx_term.specs.Term.{tree};
ghost use Rattle.sx_core.specs.TermsText as spec;
ghost use Rattle.sx_core.specs.TermsText.{OneRead, OneRefused, RowRead, IsDeepRow, RefusedAs};

use std::alloc::{AllocFailed, Global};
use sx_term::{CoreError, NoMemory, Term, read_core};

/// Why the rest of a line is no row of terms.
#[derive(Drop)]
pub enum RowError {
    Memory,
    Shape,
    TooDeep(u64),
}

impl<T: Drop> From<AllocFailed<T>> for RowError {
    ghost use Rattle.std.specs.Prelude.{◌≡◌};
    ghost use Rattle.sx_core.specs.declared.terms_row.RowError.TheVariants.{Memory};

    ghost from_gives = { λ _ e. e ≡ Memory };

    fn from(_e: AllocFailed<T>) -> RowError {
        RowError::Memory
    }
}

impl From<NoMemory> for RowError {
    ghost use Rattle.std.specs.Prelude.{◌≡◌};
    ghost use Rattle.sx_core.specs.declared.terms_row.RowError.TheVariants.{Memory};

    ghost from_gives = { λ _ e. e ≡ Memory };

    fn from(_e: NoMemory) -> RowError {
        RowError::Memory
    }
}

fn row_error(e: CoreError) -> RowError
    ensures { result ≡ spec.row_error e }
{
    match e {
        CoreError::BadCore(_) => RowError::Shape,
        CoreError::TooDeep(depth) => RowError::TooDeep(depth),
        CoreError::Memory => RowError::Memory,
    }
}

/// The term after one blank, and what is left.
fn read_one<'a>(alloc: Global, rest: &'a [u8]) -> Result<(Term, &'a [u8]), RowError>
    ensures { MatchResult result (λ x. OneRead rest.entry.now (tree x.0) x.1.now)
        (λ e. OneRefused rest.entry.now e) }
{
    match rest {
        [] => Err(RowError::Shape),
        [first, others @ ..] => {
            if *first != b' ' {
                return Err(RowError::Shape);
            }
            match read_core(alloc, others, 0) {
                Ok((term, end)) => {
                    let (_text, after) = others.split_at(end);
                    Ok((term, after))
                }
                Err(e) => Err(row_error(e)),
            }
        }
    }
}

/// The terms that the rest of a line consists of, each after one blank.
pub fn read_terms(alloc: Global, rest: &[u8], count: usize) -> Result<Vec<Term>, RowError>
    ensures { MatchResult result (λ x. RowRead rest.now count (map tree x.items))
        (λ e. RefusedAs (RowRead rest.now count) (IsDeepRow rest.now count) e) }
{
    let mut found = Vec::new(alloc);
    let mut left = rest;
    for i in 0..count {
        match read_one(alloc, left) {
            Ok((term, after)) => {
                found.push(term)?;
                left = after;
            }
            Err(e) => {
                drop(found);
                return Err(e);
            }
        }
    }
    if left.is_empty() {
        return Ok(found);
    }
    drop(found);
    Err(RowError::Shape)
}

/// The two terms that the rest of a line consists of, each after one blank.
pub(crate) fn read_pair(alloc: Global, rest: &[u8]) -> Result<(Term, Term), RowError>
    ensures { MatchResult result (λ x. RowRead rest.now 2 (tree x.0 ∷ tree x.1 ∷ []))
        (λ e. RefusedAs (RowRead rest.now 2) (IsDeepRow rest.now 2) e) }
{
    match read_terms(alloc, rest, 2) {
        Ok(mut terms) => match terms.pop() {
            Some(right) => match terms.pop() {
                Some(left) => {
                    drop(terms);
                    Ok((left, right))
                }
                None => unreachable!(),
            },
            None => unreachable!(),
        },
        Err(e) => Err(e),
    }
}
