//! Laws of readings, items and printing.

ghost use Rattle.sx_grammar.specs.Laws.{InnerSpansAreFound, ItemsAreRead, SpansAreRead};
ghost use Rattle.sx_grammar.specs.Laws.{SpansAreFound, PrintsAreRead, DepthIsBounded};
ghost use Rattle.sx_grammar.specs.Order.{KidsComeBefore, RankedIsNotCyclic};
ghost use Rattle.sx_grammar.specs.TallyLaws.{TalliesAreCounted};
ghost use Rattle.sx_grammar.specs.ReadOne.{AnswersAgree};
ghost use Rattle.sx_grammar.specs.Tables.{GrammarsHaveBrackets};

/// An item that holds has readings of the symbols before its dot.
pub fn items_are_read()
    ensures { ItemsAreRead }
{}

/// A span that the items complete has a reading by its production.
pub fn spans_are_read()
    ensures { SpansAreRead }
{}

/// Each node and each bracket pair of each reading of all tokens is a span that the items complete.
pub fn spans_are_found()
    ensures { SpansAreFound }
{}

/// The printed tokens of a term without variables have a reading at the least level asked for,
/// whose term is that term.
pub fn prints_are_read()
    ensures { PrintsAreRead }
{}

/// In a grammar that is not cyclic the depth of the readings of a token list is bounded.
pub fn depth_is_bounded()
    ensures { DepthIsBounded }
{}

/// The kids of a node are narrower, or as wide and of a lower rank.
pub fn kids_come_before()
    ensures { KidsComeBefore }
{}

/// A grammar whose sorts have a ranking is not cyclic.
pub fn ranked_is_not_cyclic()
    ensures { RankedIsNotCyclic }
{}

/// The readings of a span are counted from those of its parts.
pub fn tallies_are_counted()
    ensures { TalliesAreCounted }
{}

/// The answer for a token list is one, but for the pair of readings shown.
pub fn answers_are_one()
    ensures { AnswersAgree }
{}

/// Each node and each bracket pair inside a reading of a complete span is a span that the items
/// complete.
pub fn inner_spans_are_found()
    ensures { InnerSpansAreFound }
{}

/// Each sort of a grammar has the brackets that its parts ask for.
pub fn grammars_have_brackets()
    ensures { GrammarsHaveBrackets }
{}
