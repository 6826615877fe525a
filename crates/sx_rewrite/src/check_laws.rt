//! What holds of the rules of an extension that are checked by the set before it.

ghost use Rattle.sx_rewrite.specs.CheckLaws.{
  LongerTablesAreAccepted,
  PlainRulesStay,
  LongerTablesRewriteAlike,
  FlatPremisesAreBase,
  FlatGoalsStay,
  ChecksHaveFitTerms,
  FoundChecksCanBeRewritten,
  ChecksAreRewrittenAlike,
  ChecksAreSound,
  StoredExtensionsAreSound,
};

/// An accepted set stays one with a table that goes on from its own.
pub fn longer_tables_are_accepted()
    ensures { LongerTablesAreAccepted }
{}

/// The plain rules of an accepted set stay as they are with a longer table.
pub fn plain_rules_stay()
    ensures { PlainRulesStay }
{}

/// A derivation whose terms are well sorted by the shapes of a set is rewritten alike
/// with a longer table.
pub fn longer_tables_rewrite_alike()
    ensures { LongerTablesRewriteAlike }
{}

/// The labels of the flat premises of a rule are base.
pub fn flat_premises_are_base()
    ensures { FlatPremisesAreBase }
{}

/// The flat goal of a rule is well sorted by the shapes before its extension.
pub fn flat_goals_stay()
    ensures { FlatGoalsStay }
{}

/// The terms of a derivation of the flat goal by plain rules have as many parts as the table
/// of the set asks for.
pub fn checks_have_fit_terms()
    ensures { ChecksHaveFitTerms }
{}

/// The first derivation of the flat goal by plain rules can be rewritten, if it is no deeper
/// than 3,000 and its terms than 1,000.
pub fn found_checks_can_be_rewritten()
    ensures { FoundChecksCanBeRewritten }
{}

/// A derivation of the flat goal by plain rules is rewritten by the set as by the set with the
/// table of the extension.
pub fn checks_are_rewritten_alike()
    ensures { ChecksAreRewrittenAlike }
{}

/// What is stored of a rule makes it sound after the set.
pub fn checks_are_sound()
    ensures { ChecksAreSound }
{}

/// What is stored of the rules of an extension that fits makes them sound after the set.
pub fn stored_extensions_are_sound()
    ensures { StoredExtensionsAreSound }
{}
