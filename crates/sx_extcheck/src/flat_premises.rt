//! The flat premises of a rule, as hypotheses.

ghost use Rattle.std.specs.Prelude.{◌≡◌, ◌∷◌, [], IfOk, OnOk, map};
ghost use Rattle.std.specs.List.{AllByRecursion};
ghost use Rattle.sx_rules.specs.Views.{premise, hypotheses};
ghost use Rattle.sx_plain.specs.Views.{table_of};
ghost use Rattle.sx_rewrite.specs.PlainRules.{PremiseHasImage};
ghost use Rattle.sx_extcheck.specs.Hypotheses.{plain_given, both_given};

use std::alloc::Global;
use sx_plain::PlainTable;
use sx_rewrite::{plain_judgement, plain_term};
use sx_rules::{Hyps, Premise};
use sx_term::NoMemory;

/// The premises with plain images, as hypotheses: the judgements, and the pairs of terms that are
/// to be apart. The one refusal is out of memory.
pub(crate) fn plain_premises(
    alloc: Global,
    plain: &PlainTable,
    premises: &[Premise],
) -> Result<Hyps, NoMemory>
    requires { AllByRecursion (PremiseHasImage (table_of plain.now)) (map premise premises.now) }
    ensures { IfOk result
        (λ h. hypotheses h ≡ plain_given (table_of plain.now) (map premise premises.now)) }
{
    let mut given = Hyps {
        holds: Vec::new(alloc),
        apart: Vec::new(alloc),
    };
    for premise in premises {
        add_premise(alloc, plain, premise, &mut given)?;
    }
    Ok(given)
}

/// Adds the premise with plain images to the hypotheses. The one refusal is out of memory.
fn add_premise(
    alloc: Global,
    plain: &PlainTable,
    from: &Premise,
    given: &mut Hyps,
) -> Result<(), NoMemory>
    requires { PremiseHasImage (table_of plain.now) (premise from.now) }
    ensures { OnOk result (hypotheses given.new ≡ both_given (hypotheses given.old)
        (plain_given (table_of plain.now) (premise from.now ∷ []))) }
{
    match from {
        Premise::Holds(it) => {
            let judgement = plain_judgement(alloc, plain, it)?;
            given.holds.push(judgement)?;
            Ok(())
        }
        Premise::Apart(left, right) => {
            let left = plain_term(alloc, plain, left)?;
            let right = plain_term(alloc, plain, right)?;
            given.apart.push((left, right))?;
            Ok(())
        }
    }
}
