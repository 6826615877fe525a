//! What is proved of languages with extensions.

ghost use Rattle.sx_accepting.specs.Refusals.{IsAcceptedSet, RejectedGoalsAreSorted};
ghost use Rattle.sx_accepting.specs.Refusals.{RefusedExtensionsCanBeTold, RefusedRulesStopAlike};
ghost use Rattle.sx_accepting.specs.Laws.{ExtendedIsAccepted, LanguagesAgree, ExtendsAgree};
ghost use Rattle.sx_accepting.specs.Laws.{UnsoundIsFinal};

use sx_rewrite::Accepted;

/// What holds of every accepted set and of its rule sets.
pub fn kept(set: &Accepted)
    ensures { IsAcceptedSet set.now }
{
    set.facts();
    set.base_rules().facts();
    set.plain_rules().facts();
}

/// The stuck goal of a rule that is not sound is well sorted, and no deeper than 1,000.
pub fn rejected_goals_are_sorted()
    ensures { RejectedGoalsAreSorted }
{}

/// Why an extension that was read is not accepted can be told.
pub fn refused_extensions_can_be_told()
    ensures { RefusedExtensionsCanBeTold }
{}

/// The stop of a rule that is refused depends on the stuck goal as plain data alone.
pub fn refused_rules_stop_alike()
    ensures { RefusedRulesStopAlike }
{}

/// What a language that a text states becomes by extensions is an accepted set.
pub fn extended_is_accepted()
    ensures { ExtendedIsAccepted }
{}

/// By the name and the files a language's file states one language or has one stop, out of memory
/// and read faults aside, but for the two readings that a stop shows of a line with more than two.
pub fn languages_agree()
    ensures { LanguagesAgree }
{}

/// By the language, the files and the budgets there is one result and one number of tries, out of
/// memory aside, but for the two readings that a stop shows of a line with more than two.
pub fn extends_agree()
    ensures { ExtendsAgree }
{}

/// Extensions are refused for a type error only where the rule that the stop is about is not sound.
pub fn unsound_is_final()
    ensures { UnsoundIsFinal }
{}
