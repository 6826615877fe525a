//! The distinct literals of a grammar.

ghost use Rattle.std.specs.Prelude.{◌≡◌, List, [], ◌∷◌, ◌++◌, Contains, OnOk, IfOk};
ghost use Rattle.sx_grammar.specs.Grammar.{Text as TextOf};
ghost use Rattle.sx_grammar.specs.Parts.{texts};
ghost use Rattle.sx_grammar.specs.Distinct.{distinct};

use std::alloc::Global;
use sx_term::{Names, NoMemory, Text, copy_texts};

/// Adds a text that is none of the names, and the same as a name.
fn add(alloc: Global, text: &Text, out: &mut Vec<Text>, names: &mut Names) -> Result<(), NoMemory>
    requires { ¬ (Contains names.old text.now) }
    ensures texts { OnOk result (out.new.items ≡ out.old.items ++ text.now ∷ []) }
    ensures names { OnOk result (names.new ≡ names.old ++ text.now ∷ []) }
{
    names.push(alloc, text.bytes())?;
    out.push(text.copy(alloc)?)?;
    Ok(())
}

/// Adds to the distinct texts of a list each text once, where it first stands, and the same to
/// their names.
fn fill(
    alloc: Global,
    list: &[&Text],
    out: &mut Vec<Text>,
    names: &mut Names,
) -> Result<(), NoMemory>
    ensures texts { (start : List TextOf) → out.old.items ≡ distinct start →
        names.old ≡ distinct start →
        OnOk result (out.new.items ≡ distinct (start ++ texts list.now)) }
    ensures names { (start : List TextOf) → names.old ≡ distinct start →
        OnOk result (names.new ≡ distinct (start ++ texts list.now)) }
{
    for text in list {
        if names.number(text.bytes()).is_none() {
            add(alloc, text, out, names)?;
        }
    }
    Ok(())
}

/// The distinct texts of a list and their names, with those of more texts behind.
fn filled(
    alloc: Global,
    list: &[&Text],
    out: Vec<Text>,
    names: Names,
) -> Result<(Vec<Text>, Names), NoMemory>
    ensures texts { (start : List TextOf) → out.items ≡ distinct start → names ≡ distinct start →
        IfOk result (λ r. r.0.items ≡ distinct (start ++ texts list.now)) }
    ensures names { (start : List TextOf) → names ≡ distinct start →
        IfOk result (λ r. r.1 ≡ distinct (start ++ texts list.now)) }
{
    let mut out = out;
    let mut names = names;
    match fill(alloc, list, &mut out, &mut names) {
        Ok(()) => Ok((out, names)),
        Err(e) => {
            drop(names);
            drop(out);
            Err(e)
        }
    }
}

/// Each text once, where it first stands, and the same as names.
pub(crate) fn distinct(alloc: Global, list: &[&Text]) -> Result<(Vec<Text>, Names), NoMemory>
    ensures texts { IfOk result (λ r. r.0.items ≡ distinct (texts list.now)) }
    ensures names { IfOk result (λ r. r.1 ≡ distinct (texts list.now)) }
{
    filled(alloc, list, Vec::new(alloc), Names::new(alloc))
}

/// The distinct texts of a list and their names, copied, with those of more texts behind.
pub(crate) fn distinct_behind(
    alloc: Global,
    before: &[Text],
    names: &Names,
    list: &[&Text],
) -> Result<(Vec<Text>, Names), NoMemory>
    ensures texts { (start : List TextOf) → before.now ≡ distinct start →
        names.now ≡ distinct start →
        IfOk result (λ r. r.0.items ≡ distinct (start ++ texts list.now)) }
    ensures names { (start : List TextOf) → names.now ≡ distinct start →
        IfOk result (λ r. r.1 ≡ distinct (start ++ texts list.now)) }
{
    let out = copy_texts(alloc, before)?;
    match names.copy() {
        Ok(names) => filled(alloc, list, out, names),
        Err(e) => {
            drop(out);
            Err(e)
        }
    }
}
