//! The order in which two readings are shown.

ghost use Rattle.std.specs.Prelude.{◌≡◌, ◌≤◌, ◌⊎◌, true, false, IfOk, length};
ghost use Rattle.sx_grammar.specs.Parts.{labels};
ghost use Rattle.sx_grammar.specs.Reading.{reading_depth};
ghost use Rattle.sx_forest.specs.Readings.{plain_reading};
ghost use Rattle.sx_forest.specs.Text.{token_texts, tree_text, IsWithin};
ghost use Rattle.sx_forest.specs.Verdict.{IsNotAfter};
ghost use Rattle.sx_term.specs.Limits.{most_depth};

use crate::reading::Reading;
use crate::writing::write_tree;
use std::alloc::Global;
use std::cmp::Ordering;
use sx_grammar::Grammar;
use sx_term::NoMemory;
use sx_token::Token;

/// Whether the first text is after the second by bytes.
fn is_after(first: &[u8], second: &[u8]) -> bool
    ensures not_after { result ≡ false → IsNotAfter first.now second.now }
    ensures after { result ≡ true → IsNotAfter second.now first.now }
{
    matches!(first.cmp(second), Ordering::Greater)
}

/// Whether the tree text of the first reading is after that of the second by bytes.
fn text_is_after(
    alloc: Global,
    grammar: &Grammar,
    tokens: &[Token],
    one: &Reading,
    other: &Reading,
) -> Result<bool, NoMemory>
    requires one_deep { reading_depth (plain_reading one.now) ≤ most_depth }
    requires other_deep { reading_depth (plain_reading other.now) ≤ most_depth }
    requires one_within { IsWithin (length grammar.now.parts.productions) (length tokens.now)
        (plain_reading one.now) }
    requires other_within { IsWithin (length grammar.now.parts.productions) (length tokens.now)
        (plain_reading other.now) }
    ensures not_after { IfOk result (λ b. b ≡ false →
        IsNotAfter (tree_text (labels grammar.now.parts) (token_texts tokens.now)
        (plain_reading one.now))
        (tree_text (labels grammar.now.parts) (token_texts tokens.now) (plain_reading other.now))) }
    ensures after { IfOk result (λ b. b ≡ true →
        IsNotAfter (tree_text (labels grammar.now.parts) (token_texts tokens.now)
        (plain_reading other.now)) (tree_text (labels grammar.now.parts) (token_texts tokens.now)
        (plain_reading one.now))) }
{
    let mut first = Vec::new(alloc);
    write_tree(alloc, grammar, one, tokens, &mut first)?;
    let mut second = Vec::new(alloc);
    write_tree(alloc, grammar, other, tokens, &mut second)?;
    Ok(is_after(&first, &second))
}

/// The two readings, that first whose tree text is not after that of the other by bytes.
pub(crate) fn in_text_order(
    alloc: Global,
    grammar: &Grammar,
    tokens: &[Token],
    one: Reading,
    other: Reading,
) -> Result<(Reading, Reading), NoMemory>
    requires one_deep { reading_depth (plain_reading one) ≤ most_depth }
    requires other_deep { reading_depth (plain_reading other) ≤ most_depth }
    requires one_within { IsWithin (length grammar.now.parts.productions) (length tokens.now)
        (plain_reading one) }
    requires other_within { IsWithin (length grammar.now.parts.productions) (length tokens.now)
        (plain_reading other) }
    ensures pair { IfOk result (λ p. ((p.0 ≡ one) × (p.1 ≡ other)) ⊎
        ((p.0 ≡ other) × (p.1 ≡ one))) }
    ensures order { IfOk result (λ p. IsNotAfter
        (tree_text (labels grammar.now.parts) (token_texts tokens.now) (plain_reading p.0))
        (tree_text (labels grammar.now.parts) (token_texts tokens.now) (plain_reading p.1))) }
{
    if text_is_after(alloc, grammar, tokens, &one, &other)? {
        Ok((other, one))
    } else {
        Ok((one, other))
    }
}
