//! Laws of auditors that are named, and then shown derivations.

ghost use Rattle.sx_auditing.specs.Laws as laws;

/// Words name the same auditors, or stop at the same word.
pub fn names_once()
    ensures { laws.NamesOnce }
{}

/// Showing a list leads to the same auditors, or to the same objection.
pub fn shows_once()
    ensures { laws.ShowsOnce }
{}

/// The first auditor of a word's kind is kept, as the last word of this kind sets it.
pub fn words_are_kept()
    ensures { laws.WordsAreKept }
{}

/// No entry of a list that is shown to an auditor of the kind `deny`, and is not objected to, is by
/// one of its rules.
pub fn denied_are_unlisted()
    ensures { laws.DeniedAreUnlisted }
{}

/// An auditor of the kind `deny` is as before after a list to which no auditor objects.
pub fn denying_stays()
    ensures { laws.DenyingStays }
{}

/// The first auditor with a word's kind as its name, where it has the step of the kind `deny`, is
/// kept with the rules that the word lists.
pub fn denied_are_kept()
    ensures { laws.DeniedAreKept }
{}
