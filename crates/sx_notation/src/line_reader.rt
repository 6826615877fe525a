//! Reading lines of text.

ghost use Rattle.std.specs.Prelude.{◌≡◌, ◌+◌, ◌<◌, ◌≤◌, ◌^◌, ℕ, List, None, length, IfOk};
ghost use Rattle.std.specs.Prelude.{IfErr, OnErr};
ghost use Rattle.sx_term.specs.declared.sort.Sort.{Sort};
ghost use Rattle.sx_term.specs.Term.{tree};
ghost use Rattle.sx_grammar.specs.Parts.{numbered};
ghost use Rattle.sx_grammar.specs.ReadOne.{IsAnswer, only};
ghost use Rattle.sx_earley.specs.Tokens.{Stems, plain_tokens};
ghost use Rattle.sx_earley.specs.Completed.{IsSort, sort_number};
ghost use Rattle.sx_forest.specs.Readings.{plain_reading};
ghost use Rattle.sx_notation.specs.WhyUnread.{IsReadError};
ghost use Rattle.sx_notation.specs.ReadText.{IsLineCut, IsKnownCut, IsReadLine, IsUncut};
ghost use Rattle.sx_notation.specs.ReadText.{IsTextRefused};
ghost use Rattle.sx_notation.specs.ReadText.{IsUnreadLine, line_token_error};
ghost use Rattle.sx_notation.specs.ReadAmong.{IsNamedCut, IsReadAmong, IsRefusedAmong};
ghost use Rattle.sx_term.specs.Limits.{most_bytes, most_tokens};

use crate::named_tokens::are_named;
use crate::notation_error::NotationError;
use crate::telling::why_unread;
use std::alloc::Global;
use std::marker::Model;
use sx_earley::{Metas, ReadyGrammar, Stems};
use sx_forest::{ReadError, Reading, read_one_by, strip};
use sx_grammar::Grammar;
use sx_lines::Kind;
use sx_term::{NoMemory, Sort, Term, Vars};
use sx_token::{Literals, Token, TokenError};

/// What any number of lines are read by: a grammar that is ready for charts, with tables of its
/// literals and of the stems of metavariables.
#[derive(Drop)]
pub struct LineReader<'a> {
    grammar: ReadyGrammar<'a>,
    literals: Literals<'a>,
    stems: Stems<'a>,
}

impl<'a> Model for LineReader<'a> {
    ghost use Rattle.std.specs.Prelude.{◌≡◌};
    ghost use Rattle.sx_grammar.specs.Tables.{literals_of};
    ghost use Rattle.sx_notation.specs.ReadText.{ReaderData};

    ghost Value = { ReaderData };

    ghost view = { λ r. record { parts = r.grammar.parts; stems = r.stems } };

    ghost invariant = { λ r. r.literals ≡ literals_of r.grammar.parts };
}

/// The refusal of the line that has this defect.
fn token_error(line: u32, error: TokenError) -> NotationError
    ensures { result ≡ line_token_error line error }
{
    match error {
        TokenError::Memory => NotationError::Memory,
        error => NotationError::Token { line, error },
    }
}

/// The refusal of the line of so many bytes whose tokens have not one reading.
fn read_error(
    alloc: Global,
    grammar: &Grammar,
    tokens: &[Token],
    size: usize,
    line: u32,
    error: ReadError,
) -> NotationError
    requires { (stems : Stems) × (sort : Sort) ×
        IsReadError grammar.now.parts stems sort tokens.now error }
    ensures { (stems : Stems) (sort : Sort) →
        IsReadError grammar.now.parts stems sort tokens.now error →
        IsUnreadLine grammar.now.parts stems sort tokens.now size line result }
{
    match why_unread(alloc, grammar, tokens, size, error) {
        Ok(error) => NotationError::Read { line, error },
        Err(NoMemory::Memory) => NotationError::Memory,
    }
}

/// The tokens of the line with this number.
fn cut_line(
    alloc: Global,
    by: &LineReader,
    line: &[u8],
    number: u32,
) -> Result<Vec<Token>, NotationError>
    requires { length line.now ≤ most_bytes }
    ensures cut { IfOk result (λ ts. IsLineCut by.now.parts line.now ts.items) }
    ensures refused { IfErr result (λ e. (stems : Stems) →
        IsUncut by.now.parts stems line.now number e) }
{
    let literals = &by.literals;
    match literals.tokens(alloc, line, true) {
        Ok(tokens) => Ok(tokens),
        Err(error) => Err(token_error(number, error)),
    }
}

/// The same, where the stem of each metavariable is known.
fn known_tokens(
    alloc: Global,
    by: &LineReader,
    line: &[u8],
    number: u32,
) -> Result<Vec<Token>, NotationError>
    requires { length line.now ≤ most_bytes }
    ensures known { IfOk result (λ ts. IsKnownCut by.now.parts by.now.stems line.now ts.items) }
    ensures refused { IfErr result (IsUncut by.now.parts by.now.stems line.now number) }
{
    let tokens = cut_line(alloc, by, line, number)?;
    let stems = &by.stems;
    match stems.first_unknown(&tokens) {
        None => Ok(tokens),
        Some(_) => Err(NotationError::Notation {
            line: number,
            kind: Kind::Variable,
        }),
    }
}

/// The same, where the name of each metavariable is among the names, of which `copy` is a copy.
fn named_tokens(
    alloc: Global,
    by: &LineReader,
    line: &[u8],
    number: u32,
    names: &Vars,
    copy: &mut Vars,
) -> Result<Vec<Token>, NotationError>
    requires short { length line.now ≤ most_bytes }
    requires room { length names.now + most_tokens < 2 ^ 32 }
    requires same { copy.old ≡ names.now }
    ensures named { IfOk result (λ ts.
        IsNamedCut by.now.parts by.now.stems names.now line.now ts.items) }
    ensures same { IfOk result (λ _. copy.new ≡ names.now) }
    ensures refused { IfErr result (λ e. (sort : Sort) →
        IsRefusedAmong by.now.parts by.now.stems sort line.now names.now number e) }
{
    let tokens = known_tokens(alloc, by, line, number)?;
    match are_named(alloc, names, copy, &tokens) {
        Ok(true) => Ok(tokens),
        Ok(false) => {
            drop(tokens);
            Err(NotationError::Notation {
                line: number,
                kind: Kind::Variable,
            })
        }
        Err(_) => {
            drop(tokens);
            Err(NotationError::Memory)
        }
    }
}

/// The only reading of the tokens of a line with this number and so many bytes.
fn reading_of(
    alloc: Global,
    by: &LineReader,
    sort: Sort,
    tokens: &[Token],
    size: usize,
    number: u32,
) -> Result<Reading, NotationError>
    requires sort { IsSort by.now.parts sort }
    requires known { (line : List ℕ) × IsKnownCut by.now.parts by.now.stems line tokens.now }
    ensures only { IfOk result
        (λ r. IsAnswer (numbered by.now.parts) (plain_tokens by.now.stems tokens.now)
        (sort_number sort) (only (plain_reading r))) }
    ensures refused { IfErr result
        (IsUnreadLine by.now.parts by.now.stems sort tokens.now size number) }
{
    let ready = &by.grammar;
    let stems = &by.stems;
    let grammar = ready.grammar();
    match read_one_by(alloc, ready, sort, stems, tokens) {
        Ok(reading) => Ok(reading),
        Err(error) => Err(read_error(alloc, grammar, tokens, size, number, error)),
    }
}

impl<'a> LineReader<'a> {
    /// The tables of the grammar and the stems.
    pub fn new(
        alloc: Global,
        grammar: &'a Grammar,
        metas: &'a Metas,
    ) -> Result<LineReader<'a>, NoMemory>
        ensures { IfOk result (λ r.
            r ≡ record { parts = grammar.now.parts; stems = metas.now.stems.items }) }
    {
        grammar.facts();
        Ok(LineReader {
            grammar: ReadyGrammar::new(alloc, grammar)?,
            literals: Literals::new(alloc, grammar.literals())?,
            stems: Stems::new(alloc, metas)?,
        })
    }

    /// The stems.
    pub fn stems(&self) -> &Stems<'a>
        ensures { result.now ≡ self.now.stems }
    {
        &self.stems
    }

    /// The term of the line's only reading as the sort, as `read_text` has it.
    pub fn read_line(
        &self,
        alloc: Global,
        sort: Sort,
        line: &[u8],
        number: u32,
        vars: &mut Vars,
    ) -> Result<Term, NotationError>
        requires sort { IsSort self.now.parts sort }
        requires short { length line.now ≤ most_bytes }
        requires room { length vars.now + most_tokens < 2 ^ 32 }
        ensures read { IfOk result
            (λ t. IsReadLine self.now.parts self.now.stems sort line.now vars.old vars.new
            (tree t)) }
        ensures refused { IfErr result
            (IsTextRefused self.now.parts self.now.stems sort line.now number) }
        ensures kept { OnErr result (vars.new ≡ vars.old) }
        ensures grows { length vars.new ≤ length vars.old + most_tokens }
    {
        let tokens = known_tokens(alloc, self, line, number)?;
        let reading = reading_of(alloc, self, sort, &tokens, line.len(), number)?;
        let term = strip(alloc, &reading, &tokens, vars)?;
        Ok(term)
    }

    /// The term of the line's only reading as the sort, whose variables have the numbers of their
    /// names among these. The line is refused, with its number, where it has no tokens, where the
    /// stem of a metavariable is unknown or its name is none of these, and where its tokens have
    /// not one reading, in this order.
    pub fn read_among(
        &self,
        alloc: Global,
        sort: Sort,
        line: &[u8],
        number: u32,
        names: &Vars,
    ) -> Result<Term, NotationError>
        requires sort { IsSort self.now.parts sort }
        requires short { length line.now ≤ most_bytes }
        requires room { length names.now + most_tokens < 2 ^ 32 }
        ensures read { IfOk result (λ t.
            IsReadAmong self.now.parts self.now.stems sort line.now names.now (tree t)) }
        ensures refused { IfErr result
            (IsRefusedAmong self.now.parts self.now.stems sort line.now names.now number) }
    {
        let mut copy = names.copy(alloc)?;
        let tokens = named_tokens(alloc, self, line, number, names, &mut copy)?;
        let reading = reading_of(alloc, self, sort, &tokens, line.len(), number)?;
        let term = strip(alloc, &reading, &tokens, &mut copy)?;
        Ok(term)
    }
}
