//! The lines of an extension that is accepted.

ghost use Rattle.std.specs.Prelude.{◌≡◌, ◌++◌, ◌+◌, ◌<◌, ◌^◌, OnOk, IfOk};
ghost use Rattle.sx_check.specs.CheckText as text;

use crate::certificate_text::put_certificate;
use std::alloc::Global;
use sx_rewrite::Accepted;
use sx_term::{NoMemory, Text};

/// Appends the line of the certificate of the rule with this number, where it has one.
fn put_rule(alloc: Global, set: &Accepted, number: u32, into: &mut Vec<u8>) -> Result<(), NoMemory>
    ensures { OnOk result (into.new.items ≡ into.old.items
        ++ text.rule_line (text.shown_set set.now) number) }
{
    match set.certificate(number) {
        Some(proof) => {
            let name = set.rules().name_of(alloc, number)?;
            put_certificate(alloc, set.base_rules(), &name, proof, into)
        }
        None => Ok(()),
    }
}

/// Appends the lines of the certificates of so many rules, from the one with this number on.
fn put_rules(
    alloc: Global,
    set: &Accepted,
    first: u32,
    count: u32,
    into: &mut Vec<u8>,
) -> Result<(), NoMemory>
    requires { first + count < 2 ^ 32 }
    ensures { OnOk result (into.new.items ≡ into.old.items
        ++ text.rule_lines (text.shown_set set.now) first count) }
{
    for i in 0..count {
        put_rule(alloc, set, first + i, into)?;
    }
    Ok(())
}

/// Appends the line that tells how many rules were accepted.
fn put_accepted(alloc: Global, name: &Text, count: u32, into: &mut Vec<u8>) -> Result<(), NoMemory>
    ensures { OnOk result (into.new.items ≡ into.old.items
        ++ text.accepted_line name.now count) }
{
    let digits = count.to_string(alloc)?;
    into.extend_from_slice(b"accepted ")?;
    into.extend_from_slice(name.bytes())?;
    into.extend_from_slice(b": ")?;
    into.extend_from_slice(digits.as_bytes())?;
    into.extend_from_slice(b" rules\n")?;
    Ok(())
}

/// The lines of the extension with this name, whose rules are so many of the set, from the one with
/// this number on: the certificate of each, and how many they are.
pub(crate) fn check_lines(
    alloc: Global,
    set: &Accepted,
    name: &Text,
    first: u32,
    count: u32,
) -> Result<Vec<u8>, NoMemory>
    requires { first + count < 2 ^ 32 }
    ensures { IfOk result (λ lines. lines.items
        ≡ text.check_text (text.shown_set set.now) name.now first count) }
{
    let mut lines = Vec::new(alloc);
    put_rules(alloc, set, first, count, &mut lines)?;
    put_accepted(alloc, name, count, &mut lines)?;
    Ok(lines)
}
