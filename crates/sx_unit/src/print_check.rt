//! Whether a printed text is within the limits and reads back as its term.

ghost use Rattle.std.specs.Prelude.{◌≡◌, ◌≤◌, ◌++◌, ℕ, List, [], false, length, IfOk, IfErr};
ghost use Rattle.std.specs.Str.{IsUtf8};
ghost use Rattle.sx_term.specs.declared.sort.Sort.{Sort};
ghost use Rattle.sx_term.specs.Cutting as cutting;
ghost use Rattle.sx_term.specs.Cutting.{Piece, IsOutcome};
ghost use Rattle.sx_term.specs.Spaced.{AreBlanks};
ghost use Rattle.sx_term.specs.Term.{tree};
ghost use Rattle.sx_term.specs.Tree.{depth_of};
ghost use Rattle.sx_token.specs.Tokens.{pieces};
ghost use Rattle.sx_grammar.specs.Grammar.{of_sort};
ghost use Rattle.sx_grammar.specs.Parts.{numbered};
ghost use Rattle.sx_grammar.specs.Print.{Fits};
ghost use Rattle.sx_grammar.specs.Reading.{Reading, ReadsWhole};
ghost use Rattle.sx_grammar.specs.ReadOne.{IsAnswer, only};
ghost use Rattle.sx_grammar.specs.Tables.{literals_of};
ghost use Rattle.sx_earley.specs.Completed.{IsSort, sort_number};
ghost use Rattle.sx_earley.specs.Tokens.{plain_tokens};
ghost use Rattle.sx_earley.specs.Unknown.{HaveStems};
ghost use Rattle.sx_print.specs.Cut.{HasLexemes};
ghost use Rattle.sx_notation.specs.WhyUnread.{IsReadError};
ghost use Rattle.sx_typing.specs.Body.{IsCut};
ghost use Rattle.sx_unit.specs.PrintRefused.{IsPrintRefusal, IsUnreadPrint};
ghost use Rattle.sx_unit.specs.Texts.{printed, print_text};
ghost use Rattle.sx_unit.specs.Unprinted.{IsPrintable};
ghost use Rattle.sx_term.specs.Limits.{most_bytes, most_depth, most_tokens};

use crate::counting::count_tokens;
use std::alloc::Global;
use sx_earley::Metas;
use sx_forest::{ReadError, read_one};
use sx_grammar::Grammar;
use sx_notation::{Unread, why_unread};
use sx_term::{NoMemory, Sort, Term};
use sx_token::{Token, TokenError, tokens};
use sx_words::PrintDefect;

/// The most bytes that a file may have.
pub(crate) const MOST_BYTES: usize = sx_term::MOST_BYTES as usize;

/// The most tokens that a printed text may have.
const MOST_TOKENS: u64 = sx_term::MOST_TOKENS as u64;

/// Why a printed text cannot be written.
#[derive(Drop)]
pub(crate) enum PrintRefusal {
    /// Memory is lacking.
    Memory,
    /// The text passes a limit, or has two readings.
    Defect(PrintDefect),
}

impl From<NoMemory> for PrintRefusal {
    ghost use Rattle.std.specs.Prelude.{◌≡◌};
    ghost use Rattle.sx_unit.specs.declared.print_check.PrintRefusal.TheVariants.{Memory};

    ghost from_gives = { λ _ e. e ≡ Memory };

    fn from(_: NoMemory) -> PrintRefusal {
        PrintRefusal::Memory
    }
}

/// The tokens of a text that has tokens.
fn cut_print(alloc: Global, grammar: &Grammar, shown: &[u8]) -> Result<Vec<Token>, NoMemory>
    requires short { length shown.now ≤ most_bytes }
    requires cut { (ps : List Piece) ×
        IsOutcome (literals_of grammar.now.parts) false shown.now (cutting.tokens ps) }
    ensures cut { IfOk result (λ v. IsCut grammar.now.parts shown.now v.items) }
    ensures only { IfOk result (λ v. (ps : List Piece) →
        IsOutcome (literals_of grammar.now.parts) false shown.now (cutting.tokens ps) →
        pieces v.items ≡ ps) }
{
    grammar.facts();
    match tokens(alloc, shown, grammar.literals(), false) {
        Ok(tokens) => Ok(tokens),
        Err(error) => match error {
            TokenError::Memory => Err(NoMemory::Memory),
            _ => unreachable!(),
        },
    }
}

/// The refusal of tokens that have a reading, for which `read_one` answers this error.
fn print_refusal(
    alloc: Global,
    grammar: &Grammar,
    tokens: &[Token],
    error: ReadError,
) -> PrintRefusal
    requires { (sort : Sort) × (r : Reading) ×
        ReadsWhole (numbered grammar.now.parts) (plain_tokens [] tokens.now) (sort_number sort) r
        × IsReadError grammar.now.parts [] sort tokens.now error }
    ensures { (sort : Sort) → IsReadError grammar.now.parts [] sort tokens.now error →
        IsUnreadPrint grammar.now.parts sort tokens.now result }
{
    match why_unread(alloc, grammar, tokens, 0, error) {
        Err(NoMemory::Memory) => PrintRefusal::Memory,
        Ok(Unread::TooHard) => PrintRefusal::Defect(PrintDefect::Items),
        Ok(Unread::NoReading(_)) => unreachable!(),
        Ok(Unread::TooDeep(depth)) => PrintRefusal::Defect(PrintDefect::Depth(depth)),
        Ok(Unread::Ambiguous(one, other)) => {
            PrintRefusal::Defect(PrintDefect::Ambiguous { one, other })
        }
    }
}

/// Whether tokens that have a reading have only one.
fn read_print(
    alloc: Global,
    grammar: &Grammar,
    sort: Sort,
    tokens: &[Token],
) -> Result<(), PrintRefusal>
    requires sort { IsSort grammar.now.parts sort }
    requires short { length tokens.now ≤ most_tokens }
    requires stems { HaveStems [] tokens.now }
    requires read { (r : Reading) ×
        ReadsWhole (numbered grammar.now.parts) (plain_tokens [] tokens.now) (sort_number sort) r }
    ensures only { IfOk result (λ _. (r : Reading) ×
        IsAnswer (numbered grammar.now.parts) (plain_tokens [] tokens.now) (sort_number sort)
        (only r)) }
    ensures refused { IfErr result (IsUnreadPrint grammar.now.parts sort tokens.now) }
{
    let metas = Metas {
        stems: Vec::new(alloc),
    };
    match read_one(alloc, grammar, sort, &metas, tokens) {
        Ok(_) => Ok(()),
        Err(error) => Err(print_refusal(alloc, grammar, tokens, error)),
    }
}

/// How many tokens are printed of the term as the sort. The text shown is what is printed, with any
/// blanks behind it, in a file of so many bytes. It is refused where the file has more than 262,144
/// bytes, where there are more than 10,000 tokens, where reading them needs more than 2,000,000
/// items, where a reading is deeper than 1,000, and where there are two readings, in this order.
/// Otherwise its only reading is that of the term.
pub(crate) fn check_print(
    alloc: Global,
    grammar: &Grammar,
    sort: Sort,
    size: usize,
    term: &Term,
    shown: &[u8],
) -> Result<u32, PrintRefusal>
    requires sort { IsSort grammar.now.parts sort }
    requires depth { depth_of (tree term.now) ≤ most_depth }
    requires fits { Fits (numbered grammar.now.parts) [] (of_sort (sort_number sort))
        (tree term.now) }
    requires lexemes { HasLexemes (literals_of grammar.now.parts) (tree term.now) }
    requires text { (blanks : List ℕ) × AreBlanks blanks ×
        (shown.now ≡ print_text grammar.now.parts (tree term.now) ++ blanks) }
    requires utf8 { IsUtf8 shown.now }
    requires within { length shown.now ≤ size }
    ensures good { IfOk result
        (λ n. IsPrintable grammar.now.parts sort size shown.now (tree term.now)) }
    ensures tokens { IfOk result (λ n. n ≡ length (printed grammar.now.parts (tree term.now))) }
    ensures err { IfErr result
        (IsPrintRefusal grammar.now.parts sort size shown.now (tree term.now)) }
{
    grammar.facts();
    if size > MOST_BYTES {
        return Err(PrintRefusal::Defect(PrintDefect::Bytes(size as u64)));
    }
    let count = count_tokens(grammar, term);
    if count > MOST_TOKENS {
        return Err(PrintRefusal::Defect(PrintDefect::Tokens(count)));
    }
    let tokens = cut_print(alloc, grammar, shown)?;
    read_print(alloc, grammar, sort, &tokens)?;
    Ok(count as u32)
}
