//! Refusals of rewriting as those of modules.

ghost use Rattle.std.specs.Prelude.{◌≡◌};
ghost use Rattle.sx_unit.specs.Errors.{of_rewrite};

use sx_rewrite::RewriteError;
use sx_typing::ModuleError;

/// The refusal of a derivation that is not lowered.
pub(crate) fn rewrite_error(error: RewriteError) -> ModuleError
    ensures { result ≡ of_rewrite error }
{
    match error {
        RewriteError::Memory => ModuleError::Memory,
        RewriteError::RewriteSpent(nodes) => ModuleError::RewriteSpent(nodes),
        RewriteError::RewriteDeep => ModuleError::RewriteDeep,
        RewriteError::TooDeep(depth) => ModuleError::TooDeep(depth),
        RewriteError::TooBig(size) => ModuleError::TooBig(size),
    }
}
