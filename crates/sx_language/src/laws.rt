//! What holds of languages that texts state, and of lines of rules that are read.

ghost use Rattle.sx_language.specs.Laws.{OneLanguage, OneRules, ReadsAreSorted, BodiesAreSorted};
ghost use Rattle.sx_language.specs.Laws.{RulesAreUsable, UnboundIsLater};

/// A text states one language, or has one refusal, out of memory aside. The two readings that a
/// refusal shows of a line are the same two in the same order, unless the line has more than two.
pub fn one_language()
    ensures { OneLanguage }
{}

/// Lines state one list of rules, with their bodies and the names of their variables, or have one
/// first bad line, out of memory aside. The two readings that its refusal shows are the same two in
/// the same order, unless the line has more than two.
pub fn one_rules()
    ensures { OneRules }
{}

/// What is read at a sort of a grammar of rules has this sort, where variables have the sorts of
/// their stems. So a body has the sort of its conclusion's subject.
pub fn bodies_are_sorted()
    ensures reads { ReadsAreSorted }
    ensures bodies { BodiesAreSorted }
{}

/// The lexemes of rules that are read, and of their bodies, are tokens and no literals of the
/// grammar, and their terms are at most 1,000 deep.
pub fn read_rules_are_usable()
    ensures { RulesAreUsable }
{}

/// Where a rule that comes after others, none of which has its name, has an unbound variable, the
/// variable's name is found among the names of the later rules.
pub fn unbound_is_later()
    ensures { UnboundIsLater }
{}
