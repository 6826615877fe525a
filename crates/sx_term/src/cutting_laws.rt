//! Laws of the cutting of a text into tokens.

ghost use Rattle.std.specs.Prelude.{◌≡◌, ℕ, ◌+◌, ◌≤◌, ◌++◌, Bool, List, [], length};
ghost use Rattle.std.specs.List.{AllByRecursion};
ghost use Rattle.std.specs.Str.{IsUtf8};
ghost use Rattle.sx_term.specs.declared.mark.Mark.{Mark};
ghost use Rattle.sx_term.specs.Cutting.{Outcome, tokens, IsOutcome, AreDistinct, Cuts};
ghost use Rattle.sx_term.specs.Spaced.{IsTokenText, spaced, placed, AreBlanks};
ghost use Rattle.sx_term.specs.Limits.{most_tokens};

/// The cutting of a text is one: it has its tokens or its first defect, and no two of them.
pub fn one_cutting()
    ensures { (literals : List (List ℕ)) (metas : Bool) (bytes : List ℕ) (one other : Outcome) →
        AreDistinct literals → IsOutcome literals metas bytes one →
        IsOutcome literals metas bytes other → one ≡ other }
{}

/// Tokens that are written with one blank between them, and blanks at the end, are cut into just
/// these.
pub fn spaced_is_cut()
    ensures outcome { (literals : List (List ℕ)) (metas : Bool) (ts : List (Mark × List ℕ))
        (ending : List ℕ) →
        AllByRecursion (λ t. IsTokenText literals metas t.0 t.1) ts →
        AllByRecursion (λ t. IsUtf8 t.1) ts →
        AreBlanks ending → length ts ≤ most_tokens →
        IsOutcome literals metas (spaced ts ++ ending) (tokens (placed 0 ts)) }
    ensures cut { (literals : List (List ℕ)) (metas : Bool) (ts : List (Mark × List ℕ))
        (ending : List ℕ) →
        AllByRecursion (λ t. IsTokenText literals metas t.0 t.1) ts → AreBlanks ending →
        Cuts literals metas (length (spaced ts ++ ending)) (spaced ts ++ ending) (placed 0 ts) [] }
{}
