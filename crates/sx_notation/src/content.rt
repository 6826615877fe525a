//! What stands at the places of a form.

ghost use Rattle.std.specs.Prelude.{◌≡◌, map, option_map, unwrap_or, slice_get, IfOk, []};
ghost use Rattle.sx_term.specs.Term.{tree};
ghost use Rattle.sx_rules.specs.Views.{is_out};
ghost use Rattle.sx_notation.specs.GoalText.{contents};
ghost use Rattle.sx_notation.specs.Placed.{shown_term};

use std::alloc::Global;
use sx_rules::Place;
use sx_term::{NoMemory, Role, Term};

/// The term with this number, or None where there is none.
fn term_in(terms: &[Term], number: usize) -> Option<&Term>
    ensures { shown_term result ≡ slice_get (map tree terms.now) number }
{
    terms.get(number)
}

/// The same of terms that may be absent.
fn term_at<'a>(terms: Option<&'a Vec<Term>>, number: usize) -> Option<&'a Term>
    ensures { shown_term result ≡ slice_get
        (unwrap_or (option_map (λ w. map tree w.now.items) terms.entry) []) number }
{
    match terms {
        Some(terms) => term_in(terms, number),
        None => None,
    }
}

/// The inputs and the outputs in order, each at a place of its role, or None where none is left.
pub(crate) fn contents<'a>(
    alloc: Global,
    places: &[Place],
    inputs: &'a [Term],
    outputs: Option<&'a Vec<Term>>,
) -> Result<Vec<Option<&'a Term>>, NoMemory>
    ensures { IfOk result (λ v.
        map shown_term v.items ≡ contents (map (λ p. is_out p.role) places.entry.now)
        (map tree inputs.entry.now)
        (unwrap_or (option_map (λ w. map tree w.now.items) outputs.entry) [])) }
{
    let mut here = Vec::with_capacity(alloc, places.len())?;
    let mut input = 0;
    let mut output = 0;
    for place in places {
        match place.role {
            Role::In | Role::Sub => {
                here.push(term_in(inputs, input))?;
                input += 1;
            }
            Role::Out => {
                here.push(term_at(outputs, output))?;
                output += 1;
            }
        }
    }
    Ok(here)
}
