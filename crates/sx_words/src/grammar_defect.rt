//! Defects of grammars.

ghost use Rattle.std.specs.Prelude.{◌≡◌, ◌++◌, OnOk};
ghost use Rattle.sx_words.specs.RefusalText.{grammar_text};

use crate::parts::put_named;
use sx_term::{NoMemory, Text};

/// What is wrong with a grammar.
#[derive(Drop)]
pub enum GrammarDefect {
    /// A literal or bracket that is no literal.
    BadLiteral(Text),
    /// The name of two sorts.
    SameSort(Text),
    /// The name of no sort.
    UnknownSort(Text),
    /// The label of two productions.
    SameLabel(Text),
    /// The label of a plain production with a typed part.
    PlainHasTyped(Text),
    /// A sort without brackets that needs them.
    NoBrackets(Text),
    /// A sort that derives itself.
    Cyclic(Text),
}

/// Appends the defect's text.
pub(crate) fn put_grammar(defect: &GrammarDefect, into: &mut Vec<u8>) -> Result<(), NoMemory>
    ensures { OnOk result (into.new.items ≡ into.old.items ++ grammar_text defect.now) }
{
    match defect {
        GrammarDefect::BadLiteral(text) => put_named(b"bad literal ", text, b"", into),
        GrammarDefect::SameSort(name) => put_named(b"sort ", name, b" stands twice", into),
        GrammarDefect::UnknownSort(name) => put_named(b"unknown sort ", name, b"", into),
        GrammarDefect::SameLabel(label) => put_named(b"label ", label, b" stands twice", into),
        GrammarDefect::PlainHasTyped(label) => put_named(
            b"production ",
            label,
            b" has a typed part",
            into,
        ),
        GrammarDefect::NoBrackets(sort) => put_named(b"sort ", sort, b" needs brackets", into),
        GrammarDefect::Cyclic(sort) => put_named(b"sort ", sort, b" is cyclic", into),
    }
}
