//! Auditors of derivations.

ghost use Rattle.std.specs.Prelude.{◌≡◌, ◌++◌, OnOk, OnErr};
ghost use Rattle.sx_audit.specs.Meaning.{Meaning, IsAuditorSet, node, after_node, verdict};
ghost use Rattle.sx_audit.specs.Meaning.{auditor_text};

use crate::set_error::SetError;
use std::alloc::Global;
use sx_term::{NoMemory, Text};

/// What is shown the nodes of derivations one after another, and may object to one. Its step, its
/// settings and its text depend on its state alone, and no call changes what they are.
pub trait Auditor: Drop {
    /// The auditor as plain data.
    ghost meaning: { Self → Meaning };

    /// The name by which it is asked for.
    fn name(&self) -> &Text
        ensures { result.now ≡ (meaning self.now).kind.name };

    /// Puts the auditor into the state that the setting gives, or answers Bad exactly where it does
    /// not take the setting. After a refusal it is as before.
    fn set(&mut self, setting: &Text) -> Result<(), SetError>
        ensures { IsAuditorSet (meaning self.old) setting.now result (meaning self.new) };

    /// Makes the step at a node by the rule of this name at this depth, where the root has depth 1,
    /// and answers the verdict: false objects. It takes no memory.
    fn see(&mut self, rule: &Text, depth: u32) -> bool
        ensures state { meaning self.new ≡ after_node (meaning self.old) (node rule.now depth) }
        ensures verdict { result ≡ verdict (meaning self.old) (node rule.now depth) };

    /// Appends the text for the state, without a line feed. After a refusal the bytes are as
    /// before.
    fn text(&self, alloc: Global, into: &mut Vec<u8>) -> Result<(), NoMemory>
        ensures ok { OnOk result (into.new.items ≡ into.old.items ++ auditor_text
            (meaning self.now)) }
        ensures err { OnErr result (into.new.items ≡ into.old.items) };
}
