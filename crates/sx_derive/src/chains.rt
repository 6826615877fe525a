//! Proofs and frames as chains of cells that share what they have in common.

ghost use Rattle.std.specs.Prelude.{◌≡◌, ◌+◌, [], ◌∷◌, ◌++◌, IfOk, OnOk, length};

use std::alloc::Global;
use sx_term::NoMemory;

/// A proof: a given, or a rule with the chain of its bindings and the chain of its kids.
#[derive(Clone, Copy)]
pub enum Head {
    Given(u32),
    By {
        number: u32,
        variables: usize,
        env: usize,
        kids: usize,
    },
}

/// A proof behind a chain of proofs.
#[derive(Clone, Copy)]
pub struct Kid {
    pub(crate) before: usize,
    pub(crate) head: Head,
}

/// A rule that waits for its premise, and the chain of the rules that wait for it.
#[derive(Clone, Copy)]
pub struct Waiting {
    pub(crate) rule: u32,
    pub(crate) premise: usize,
    pub(crate) env: usize,
    pub(crate) kids: usize,
    pub(crate) levels: usize,
    pub(crate) before: usize,
}

/// The chain of proofs with one more.
pub(crate) fn push_kid(kids: &mut Vec<Kid>, before: usize, head: Head) -> Result<usize, NoMemory>
    ensures items { OnOk result
        (kids.new.items ≡ kids.old.items ++ record { before = before; head = head } ∷ []) }
    ensures chain { IfOk result (λ k. k ≡ length kids.old.items + 1) }
{
    kids.push(Kid { before, head })?;
    Ok(kids.len())
}

/// The chain of frames with one more.
pub(crate) fn push_waiting(frames: &mut Vec<Waiting>, frame: Waiting) -> Result<usize, NoMemory>
    ensures items { OnOk result (frames.new.items ≡ frames.old.items ++ frame ∷ []) }
    ensures chain { IfOk result (λ k. k ≡ length frames.old.items + 1) }
{
    frames.push(frame)?;
    Ok(frames.len())
}
