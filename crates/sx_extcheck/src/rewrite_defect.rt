//! Limits that a rule passes.

ghost use Rattle.std.specs.Prelude.{◌≡◌};
ghost use Rattle.sx_extcheck.specs.Limits.{limit_defect};

use crate::check_error::CheckError;
use crate::rule_refusal::RuleRefusal;
use sx_rewrite::RewriteError;

/// Out of memory, or the defect of a rule that passes this limit.
pub(crate) fn rewrite_defect(e: RewriteError) -> CheckError
    ensures { result ≡ limit_defect e }
{
    match e {
        RewriteError::Memory => CheckError::Memory,
        RewriteError::RewriteSpent(nodes) => CheckError::Defect(RuleRefusal::RewriteSpent(nodes)),
        RewriteError::RewriteDeep => CheckError::Defect(RuleRefusal::RewriteDeep),
        RewriteError::TooDeep(depth) => CheckError::Defect(RuleRefusal::TooDeep(depth)),
        RewriteError::TooBig(nodes) => CheckError::Defect(RuleRefusal::TooBig(nodes)),
    }
}
