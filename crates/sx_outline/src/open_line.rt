//! What is left open where no line is left.

ghost use Rattle.std.specs.Prelude.{ℕ, MatchOption};
ghost use Rattle.sx_outline.specs.Stages.{IsInside};
ghost use Rattle.sx_outline.specs.Reading.{stage as stage_of};

use crate::stage::Stage;

/// The number of the first line of the plain pair or the rule that has begun and is not ended.
pub(crate) fn open_line(stage: &Stage) -> Option<u32>
    ensures { MatchOption result ((number : ℕ) → IsInside (stage_of stage.now) number → ⊥)
        (λ number. IsInside (stage_of stage.now) number) }
{
    match stage {
        Stage::Start | Stage::Declarations | Stage::Plains | Stage::Rules => None,
        Stage::Body(begun) => Some(begun.number),
        Stage::Premises(begun) => Some(begun.number),
        Stage::Conclusion(begun) => Some(begun.number),
        Stage::End(rule) => Some(rule.number),
    }
}
