//! The core notation: writing.

ghost use Rattle.std.specs.Prelude.{◌≡◌, ℕ, ◌≤◌, List, ◌++◌, OnOk, OnErr, decimal};
ghost use Rattle.sx_term.specs.Tree.{depth_of};
ghost use Rattle.sx_term.specs.Term.{tree};
ghost use Rattle.sx_term.specs.Core.{core, kind_byte, IsWritable, HasCore};
ghost use Rattle.sx_term.specs.Limits.{most_depth};

use crate::lex_kind::LexKind;
use crate::no_memory::NoMemory;
use crate::term::Term;
use std::alloc::Global;

/// Appends the core text of the term: `(`, the label and the kids, each behind a blank, and `)` for
/// a node; the first letter of its kind, the number of its bytes, `:` and the bytes for a lexeme;
/// `?` and the number for a variable. Where memory is lacking, `into` is as before.
pub fn write_core(alloc: Global, term: &Term, into: &mut Vec<u8>) -> Result<(), NoMemory>
    requires depth { depth_of (tree term.now) ≤ most_depth }
    requires writable { IsWritable (tree term.now) }
    ensures ok { OnOk result (into.new.items ≡ into.old.items ++ core (tree term.now)) }
    ensures has_core { OnOk result (HasCore (tree term.now)) }
    ensures err { OnErr result (into.new.items ≡ into.old.items) }
{
    let before = into.len();
    match append_core(alloc, term, into) {
        Ok(()) => Ok(()),
        Err(e) => {
            into.truncate(before);
            Err(e)
        }
    }
}

/// Appends the core text, or a front of it where memory is lacking.
fn append_core(alloc: Global, term: &Term, into: &mut Vec<u8>) -> Result<(), NoMemory>
    requires depth { depth_of (tree term.now) ≤ most_depth }
    requires writable { IsWritable (tree term.now) }
    ensures ok { OnOk result (into.new.items ≡ into.old.items ++ core (tree term.now)) }
    ensures has_core { OnOk result (HasCore (tree term.now)) }
    ensures appends { (more : List ℕ) × (into.new.items ≡ into.old.items ++ more) }
{
    match term {
        Term::Node { label, kids } => {
            into.push(b'(')?;
            append_decimal(alloc, *label, into)?;
            for kid in kids {
                into.push(b' ')?;
                append_core(alloc, kid, into)?;
            }
            into.push(b')')?;
            Ok(())
        }
        Term::Lex { kind, text } => {
            let bytes = text.bytes();
            into.push(byte_of_kind(*kind))?;
            append_decimal(alloc, bytes.len() as u32, into)?;
            into.push(b':')?;
            into.extend_from_slice(bytes)?;
            Ok(())
        }
        Term::Var(variable) => {
            into.push(b'?')?;
            append_decimal(alloc, *variable, into)?;
            Ok(())
        }
    }
}

/// The letter of the kind.
fn byte_of_kind(kind: LexKind) -> u8
    ensures { result ≡ kind_byte kind }
{
    match kind {
        LexKind::Id => b'i',
        LexKind::Num => b'n',
        LexKind::Str => b's',
    }
}

/// Appends the number in decimal, without leading zeros.
fn append_decimal(alloc: Global, number: u32, into: &mut Vec<u8>) -> Result<(), NoMemory>
    ensures ok { OnOk result (into.new.items ≡ into.old.items ++ decimal number) }
    ensures err { OnErr result (into.new.items ≡ into.old.items) }
{
    let text = format!(in alloc; "{number}")?;
    into.extend_from_slice(text.as_str().as_bytes())?;
    Ok(())
}
