//! Laws of the grammar by which rules are read, of terms that are read, and of texts that are not.

ghost use Rattle.sx_notation.specs.OneReason.{OneReason};
ghost use Rattle.sx_notation.specs.RuleLaws.{ProductionsStay, FormsFollow, SortedGoalsFit};
ghost use Rattle.sx_notation.specs.ReadLaws.{ReadsHaveLexemes, ReadsAreShallow, AmongIsRead};

/// The productions of a grammar keep their labels in the grammar by which rules are read. The forms
/// follow them in order, each with parts of the sorts of its places, and then three productions for
/// `!=`.
pub fn rule_grammars_go_on()
    ensures stay { ProductionsStay }
    ensures follow { FormsFollow }
{}

/// A goal that is well sorted by a grammar, as its outputs are where they were got, fits the forms
/// of the grammar by which rules are read.
pub fn sorted_goals_fit()
    ensures { SortedGoalsFit }
{}

/// The lexemes of a term that `read_text` reads are tokens of their kinds and no literals of the
/// grammar, and the term is at most 1,000 deep.
pub fn read_terms_are_usable()
    ensures lexemes { ReadsHaveLexemes }
    ensures shallow { ReadsAreShallow }
{}

/// What is read with variables among some names is what `read_text` reads after these names, and it
/// adds none.
pub fn read_among_is_read()
    ensures { AmongIsRead }
{}

/// Tokens have one reason why they have not one reading, and the two readings that it shows are the
/// same two in the same order, unless there is a third.
pub fn one_reason()
    ensures { OneReason }
{}
