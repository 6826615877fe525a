//! What is noted of the items that are found.

ghost use Rattle.std.specs.Prelude.{◌≡◌, ◌≤◌, [], IfOk};

use crate::ask_set::AskSet;
use crate::filed::Filed;
use crate::hints::Hints;
use std::alloc::{AllocError, Global};

/// Where items were found, what was asked for, and the numbers of the items by what they wait for
/// and have made.
#[derive(Drop)]
pub(crate) struct Notes {
    pub(crate) hints: Hints,
    pub(crate) asked: AskSet,
    pub(crate) filed: Filed,
}

impl Notes {
    /// Nothing noted of items that begin at the first places, so many.
    pub(crate) fn new(alloc: Global, origins: usize) -> Result<Notes, AllocError>
        requires { origins ≤ 10001 }
        ensures asked { IfOk result (λ n. n.asked ≡ []) }
        ensures keys { IfOk result (λ n. n.filed.keys ≡ []) }
        ensures numbers { IfOk result (λ n. n.filed.numbers.items ≡ []) }
    {
        Ok(Notes {
            hints: Hints::new(alloc, origins)?,
            asked: AskSet::new(alloc),
            filed: Filed::new(alloc),
        })
    }
}
