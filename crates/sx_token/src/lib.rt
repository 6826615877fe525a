//! The tokens of a text.
#![tactic(auto)]

ghost use Rattle.std.specs.Prelude.{◌≡◌, ◌<◌, ◌≤◌, ◌^◌, length, IfSome};
ghost use Rattle.sx_term.specs.Cutting.{Outcome, IsOutcome, AreDistinct};
ghost use Rattle.sx_token.specs.Tokens.{outcome_of};
ghost use Rattle.sx_term.specs.Limits.{most_bytes};

mod cut;
mod front;
mod literals;
mod table;
mod token;
mod token_error;

pub use literals::Literals;
use std::alloc::Global;
use sx_term::Text;
pub use token::Token;
pub use token_error::TokenError;

/// The tokens of the text, or its first defect. Metavariables stand only where `metas` is true.
pub fn tokens(
    alloc: Global,
    bytes: &[u8],
    literals: &[Text],
    metas: bool,
) -> Result<Vec<Token>, TokenError>
    requires distinct { AreDistinct literals.now }
    requires few { length literals.now < 2 ^ 32 }
    requires short { length bytes.now ≤ most_bytes }

    // The answer is the cutting of the text, or its first defect, unless memory runs out.
    ensures outcome { IfSome (outcome_of result) (IsOutcome literals.now metas bytes.now) }

    // What holds of the text is answered, unless memory runs out.
    ensures only { (o : Outcome) → IsOutcome literals.now metas bytes.now o →
        IfSome (outcome_of result) (λ answer. answer ≡ o) }
{
    Literals::new(alloc, literals)?.tokens(alloc, bytes, metas)
}
