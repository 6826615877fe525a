//! The texts of auditors.

ghost use Rattle.std.specs.Prelude.{◌≡◌, ◌∷◌, ◌++◌, [], map, OnOk};
ghost use Rattle.sx_audit.specs.Meaning.{auditor_text};
ghost use Rattle.sx_auditing.specs.Texts.{texts_of};

use std::alloc::Global;
use sx_audit::Auditor;
use sx_term::NoMemory;

/// Appends the auditor's text, with a line feed.
fn put_text(alloc: Global, auditor: &Box<dyn Auditor>, into: &mut Vec<u8>) -> Result<(), NoMemory>
    ensures { OnOk result (into.new.items ≡ into.old.items
        ++ auditor_text (meaning auditor.now) ++ 10 ∷ []) }
{
    auditor.text(alloc, into)?;
    into.push(b'\n')?;
    Ok(())
}

/// Appends the text of each auditor in order, with a line feed after each. Where memory runs out
/// some of these bytes stand behind those that were there before.
pub fn put_texts(
    alloc: Global,
    auditors: &[Box<dyn Auditor>],
    into: &mut Vec<u8>,
) -> Result<(), NoMemory>
    ensures { OnOk result (into.new.items ≡ into.old.items
        ++ texts_of (map (λ b. meaning b) auditors.now)) }
{
    for auditor in auditors {
        put_text(alloc, auditor, into)?;
    }
    Ok(())
}
