//! Texts with the tokens that they have.

ghost use Rattle.std.specs.Prelude.{◌≡◌, ◌≤◌, [], ◌∷◌, length, IfOk};

use crate::asserts::assert_same;
use crate::samples::{nested, text};
use std::alloc::Global;
use sx_term::{LexKind, Mark, NoMemory, Text};
use sx_token::{Literals, Token, TokenError, tokens};

const ID: Mark = Mark::Lex(LexKind::Id);

const NUM: Mark = Mark::Lex(LexKind::Num);

const STR: Mark = Mark::Lex(LexKind::Str);

/// What cutting a text answers, in a word, with the number of its tokens or a refusal's place.
type Told = (&'static str, u64);

fn told(read: &Result<Vec<Token>, TokenError>) -> Told {
    match read {
        Ok(found) => ("tokens", found.len() as u64),
        Err(TokenError::NotUtf8(place)) => ("not UTF-8", u64::from(*place)),
        Err(TokenError::BadToken(place)) => ("bad token", u64::from(*place)),
        Err(TokenError::TooManyTokens) => ("too many tokens", 0),
        Err(TokenError::OpenString(place)) => ("open string", u64::from(*place)),
        Err(TokenError::Memory) => ("memory", 0),
    }
}

/// What a token is: its mark, its text, and where it stands.
type Row = (Mark, &'static str, u32, u32);

fn is_token(token: &Token, row: &Row) -> bool {
    let (mark, text, from, to) = *row;
    token.mark == mark && token.text.as_str() == text && token.from == from && token.to == to
}

/// Whether the text has these tokens.
fn are_tokens(read: &Result<Vec<Token>, TokenError>, wanted: &[Row]) -> bool {
    match read {
        Ok(found) if found.len() == wanted.len() => {
            for (token, row) in found.iter().zip(wanted) {
                if !is_token(token, row) {
                    return false;
                }
            }
            true
        }
        _ => false,
    }
}

/// The literal `-`.
fn one_literal(alloc: Global) -> Result<Vec<Text>, NoMemory>
    ensures { IfOk result (λ v. v.items ≡ (45 ∷ []) ∷ []) }
{
    let mut literals = Vec::new(alloc);
    literals.push(text(alloc, "-")?)?;
    Ok(literals)
}

/// The literals `-` and `->`.
fn two_literals(alloc: Global) -> Result<Vec<Text>, NoMemory>
    ensures { IfOk result (λ v. v.items ≡ (45 ∷ []) ∷ (45 ∷ 62 ∷ []) ∷ []) }
{
    let mut literals = one_literal(alloc)?;
    literals.push(text(alloc, "->")?)?;
    Ok(literals)
}

/// The tokens of `a->b//c`.
const THREE: [Row; 3] = [(ID, "a", 0, 1), (Mark::Lit(1), "->", 1, 3), (ID, "b", 3, 4)];

/// Whether `a->b//c` has these three tokens.
fn cuts_three(alloc: Global) -> bool {
    match two_literals(alloc) {
        Ok(literals) => {
            let read = tokens(alloc, b"a->b//c", &literals, false);
            drop(literals);
            let are_three = are_tokens(&read, &THREE);
            drop(read);
            are_three
        }
        Err(_) => false,
    }
}

#[test]
fn cut_with_two_literals(rt: HostRuntime) {
    assert!(rt; cuts_three(rt.alloc()));
}

/// The tokens of a text with each kind of token.
const SEVEN: [Row; 7] = [
    (ID, "_é1", 0, 4),
    (NUM, "1", 5, 6),
    (ID, "x", 6, 7),
    (STR, "\"a//\"", 8, 13),
    (Mark::Meta, "~v", 15, 17),
    (Mark::Lit(0), "-", 22, 23),
    (ID, "αβ", 23, 27),
];

/// Whether the text with each kind of token is cut into its tokens.
fn cuts_each_kind(alloc: Global, table: &Literals) -> bool {
    let bytes = "_é1 1x\t\"a//\"\r\n~v // \n-αβ".as_bytes();
    let read = table.tokens(alloc, bytes, true);
    let are_seven = are_tokens(&read, &SEVEN);
    drop(read);
    are_seven
}

/// What the table answers for a text without metavariables.
fn cut_by(alloc: Global, table: &Literals, bytes: &[u8]) -> Told
    requires { length bytes.now ≤ 262144 }
{
    let read = table.tokens(alloc, bytes, false);
    let told = told(&read);
    drop(read);
    told
}

/// What one table answers for the other texts.
fn answers_by(alloc: Global, table: &Literals) -> [Told; 10] {
    [
        cut_by(alloc, table, b""),
        cut_by(alloc, table, b" \t\r\n"),
        cut_by(alloc, table, b"// no line feed"),
        cut_by(alloc, table, b"a->b//c"),
        cut_by(alloc, table, b"a ~v"),
        cut_by(alloc, table, "a \u{301}".as_bytes()),
        cut_by(alloc, table, b"- \"a\n\""),
        cut_by(alloc, table, b"\"a"),
        cut_by(alloc, table, b"a\xff"),
        cut_by(alloc, table, b"~\xce"),
    ]
}

/// Whether a table of the literal `-` cuts the text with each kind of token, and what it answers
/// for the others.
fn by_one_table(alloc: Global) -> Option<(bool, [Told; 10])> {
    match one_literal(alloc) {
        Ok(literals) => {
            let table = Literals::new(alloc, &literals);
            let answers = match &table {
                Ok(table) => Some((cuts_each_kind(alloc, table), answers_by(alloc, table))),
                Err(_) => None,
            };
            drop(table);
            drop(literals);
            answers
        }
        Err(_) => None,
    }
}

#[test]
fn cut_with_one_table(rt: HostRuntime) {
    let wanted = &Some((
        true,
        [
            ("tokens", 0),
            ("tokens", 0),
            ("tokens", 0),
            ("bad token", 2),
            ("bad token", 2),
            ("bad token", 2),
            ("open string", 2),
            ("open string", 0),
            ("not UTF-8", 1),
            ("not UTF-8", 1),
        ],
    ));
    assert_same(&rt, &by_one_table(rt.alloc()), wanted);
}

/// What cutting the text by the literal `-` answers.
fn cut_by_one(alloc: Global, bytes: &[u8]) -> Told {
    if bytes.len() > 262144 {
        return ("too long", 0);
    }
    match one_literal(alloc) {
        Ok(literals) => {
            let read = tokens(alloc, bytes, &literals, false);
            drop(literals);
            let told = told(&read);
            drop(read);
            told
        }
        Err(_) => ("memory", 0),
    }
}

/// What cutting so many words answers.
fn cut_words(alloc: Global, count: u32) -> Told {
    let words = nested(alloc, b"x ", count, b"", b"");
    let told = cut_by_one(alloc, &words);
    drop(words);
    told
}

#[test]
fn ten_thousand(rt: HostRuntime) {
    let alloc = rt.alloc();
    let found = [cut_words(alloc, 10_000), cut_words(alloc, 10_001)];
    assert_same(&rt, &found, &[("tokens", 10_000), ("too many tokens", 0)]);
}
