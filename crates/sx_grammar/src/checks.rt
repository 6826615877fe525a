//! Checking the parts of a grammar: literals, sorts and labels.

ghost use Rattle.std.specs.Prelude.{◌≡◌, OnOk, IfOk, IfErr};
ghost use Rattle.sx_grammar.specs.Parts.{parts, literals, names, texts};
ghost use Rattle.sx_grammar.specs.Made.{HasLiterals, HasSorts, HasKnownSorts, HasLabels};
ghost use Rattle.sx_grammar.specs.Made.{IsGrammarRefused};

use crate::firsts::{Numbering, first_bad, first_unknown, number};
use crate::grammar_error::GrammarError;
use crate::grammar_parts::GrammarParts;
use crate::standing::{labels, literals, names, sorts_named};
use std::alloc::Global;
use sx_term::{Names, Text};

/// The brackets and literals in order, or BadLiteral.
pub(crate) fn good_literals(alloc: Global, from: &GrammarParts) -> Result<Vec<&Text>, GrammarError>
    ensures good { OnOk result (HasLiterals (parts from.now)) }
    ensures texts { IfOk result (λ v. texts v.items ≡ literals (parts from.now)) }
    ensures refused { IfErr result (IsGrammarRefused (parts from.now)) }
{
    let texts = literals(alloc, from)?;
    if let Some(text) = first_bad(&texts) {
        drop(texts);
        return Err(GrammarError::BadLiteral(text.copy(alloc)?));
    }
    Ok(texts)
}

/// The names of the sorts, or SameSort.
pub(crate) fn good_sorts(alloc: Global, from: &GrammarParts) -> Result<Names, GrammarError>
    requires { HasLiterals (parts from.now) }
    ensures good { OnOk result (HasSorts (parts from.now)) }
    ensures names { IfOk result (λ n. n ≡ names (parts from.now)) }
    ensures refused { IfErr result (IsGrammarRefused (parts from.now)) }
{
    let list = names(alloc, from)?;
    let numbering = number(alloc, &list);
    drop(list);
    match numbering? {
        Numbering::Distinct(known) => Ok(known),
        Numbering::Again(name) => Err(GrammarError::SameSort(name.copy(alloc)?)),
    }
}

/// Whether each sort that is named is known; else UnknownSort.
pub(crate) fn known_sorts(
    alloc: Global,
    from: &GrammarParts,
    known: &Names,
) -> Result<(), GrammarError>
    requires sorts { HasSorts (parts from.now) }
    requires names { known.now ≡ names (parts from.now) }
    ensures good { OnOk result (HasKnownSorts (parts from.now)) }
    ensures refused { IfErr result (IsGrammarRefused (parts from.now)) }
{
    let named = sorts_named(alloc, &from.productions)?;
    let unknown = first_unknown(known, &named);
    drop(named);
    if let Some(name) = unknown {
        return Err(GrammarError::UnknownSort(name.copy(alloc)?));
    }
    Ok(())
}

/// Whether the labels are distinct; else SameLabel.
pub(crate) fn good_labels(alloc: Global, from: &GrammarParts) -> Result<(), GrammarError>
    requires { HasKnownSorts (parts from.now) }
    ensures good { OnOk result (HasLabels (parts from.now)) }
    ensures refused { IfErr result (IsGrammarRefused (parts from.now)) }
{
    let list = labels(alloc, &from.productions)?;
    let numbering = number(alloc, &list);
    drop(list);
    match numbering? {
        Numbering::Distinct(known) => {
            drop(known);
            Ok(())
        }
        Numbering::Again(label) => Err(GrammarError::SameLabel(label.copy(alloc)?)),
    }
}
