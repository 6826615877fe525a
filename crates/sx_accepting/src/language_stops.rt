//! The refusals of languages.

ghost use Rattle.std.specs.Prelude.{◌≡◌, ◌≤◌, ◌+◌, ◌^◌, IfOk, MatchResult, Some};
ghost use Rattle.sx_accepting.specs.LanguageStops as stops;

use std::alloc::Global;
use sx_grammar::GrammarError;
use sx_notation::{NotationError, Unread};
use sx_rules::RuleError;
use sx_steps::{Stop, bad_line, bad_rules, joined, refused, refused_at};
use sx_term::{NoMemory, Text};
use sx_token::TokenError;
use sx_words::{Defect, FileDefect, GrammarDefect, Position, TextDefect};

/// The column of a place in a line, where it is below 2^64. No line in memory is longer.
fn column_of(place: usize) -> Result<u64, NoMemory>
    ensures { MatchResult result (λ column. column ≡ place + 1) (λ _. 2 ^ 64 ≤ place + 1) }
{
    match (place as u64).checked_add(1) {
        Some(column) => Ok(column),
        None => Err(NoMemory::Memory),
    }
}

/// A defect of a line at this place in it.
fn at_place(
    alloc: Global,
    file: &Text,
    line: u32,
    place: usize,
    defect: TextDefect,
) -> Result<Stop, NoMemory>
    ensures { IfOk result (λ stop. stop ≡ stops.at_place file.now line place defect) }
{
    let line = u64::from(line);
    let column = column_of(place)?;
    refused_at(
        alloc,
        file,
        Position::Spot { line, column },
        Defect::Text(defect),
    )
}

/// A defect of a line as a whole.
fn at_line(alloc: Global, file: &Text, line: u32, defect: TextDefect) -> Result<Stop, NoMemory>
    ensures { IfOk result (λ stop. stop ≡ stops.at_line file.now line defect) }
{
    refused_at(alloc, file, Position::Line(line), Defect::Text(defect))
}

/// The refusal of a line that is not cut into tokens.
fn uncut_line(alloc: Global, file: &Text, line: u32, error: TokenError) -> Result<Stop, NoMemory>
    ensures { IfOk result (λ stop. stops.uncut_line file.now line error ≡ Some stop) }
{
    match error {
        TokenError::Memory => Err(NoMemory::Memory),
        TokenError::NotUtf8(place) => refused_at(
            alloc,
            file,
            Position::Line(line),
            Defect::File(FileDefect::NotUtf8(u64::from(place))),
        ),
        TokenError::BadToken(place) => at_place(
            alloc,
            file,
            line,
            place as usize,
            TextDefect::BadToken,
        ),
        TokenError::TooManyTokens => at_line(alloc, file, line, TextDefect::TooManyTokens),
        TokenError::OpenString(place) => at_place(
            alloc,
            file,
            line,
            place as usize,
            TextDefect::OpenString,
        ),
    }
}

/// The refusal of a line that has not one reading.
fn unread_line(alloc: Global, file: &Text, line: u32, error: Unread) -> Result<Stop, NoMemory>
    ensures { IfOk result (λ stop. stop ≡ stops.unread_line file.now line error) }
{
    match error {
        Unread::TooHard => at_line(alloc, file, line, TextDefect::TooHard),
        Unread::NoReading(place) => at_place(alloc, file, line, place, TextDefect::NoReading),
        Unread::TooDeep(depth) => at_line(alloc, file, line, TextDefect::TooDeep(depth)),
        Unread::Ambiguous(one, other) => at_line(
            alloc,
            file,
            line,
            TextDefect::Ambiguous { one, other },
        ),
    }
}

/// What is wrong with the grammar.
fn grammar_defect(error: GrammarError) -> Result<GrammarDefect, NoMemory>
    ensures { IfOk result (λ what. stops.grammar_defect_of error ≡ Some what) }
{
    match error {
        GrammarError::Memory => Err(NoMemory::Memory),
        GrammarError::BadLiteral(text) => Ok(GrammarDefect::BadLiteral(text)),
        GrammarError::SameSort(name) => Ok(GrammarDefect::SameSort(name)),
        GrammarError::UnknownSort(name) => Ok(GrammarDefect::UnknownSort(name)),
        GrammarError::SameLabel(label) => Ok(GrammarDefect::SameLabel(label)),
        GrammarError::PlainHasTyped(label) => Ok(GrammarDefect::PlainHasTyped(label)),
        GrammarError::NoBrackets(sort) => Ok(GrammarDefect::NoBrackets(sort)),
        GrammarError::Cyclic(sort) => Ok(GrammarDefect::Cyclic(sort)),
    }
}

/// The refusal of sorts, productions and forms that are no grammar.
fn bad_grammar(alloc: Global, file: &Text, error: GrammarError) -> Result<Stop, NoMemory>
    ensures { IfOk result (λ stop.
        stops.bad_grammar file.now (stops.grammar_defect_of error) ≡ Some stop) }
{
    let what = grammar_defect(error)?;
    refused(alloc, file, Defect::Grammar(what))
}

/// The name of a metavariable in the lines about a language.
fn metavariable(alloc: Global, variable: &Option<Text>) -> Result<Text, NoMemory>
    ensures { IfOk result (λ name. name ≡ stops.metavariable variable.now) }
{
    match variable {
        None => Text::of_str(alloc, ""),
        Some(name) => {
            let mark = Text::of_str(alloc, "~")?;
            joined(alloc, &mark, name)
        }
    }
}

/// The refusal of rules that are no rule set.
fn bad_language_rules(
    alloc: Global,
    file: &Text,
    error: RuleError,
    variable: &Option<Text>,
) -> Result<Stop, NoMemory>
    ensures { IfOk result (λ stop.
        stops.bad_language_rules file.now error variable.now ≡ Some stop) }
{
    let variable = metavariable(alloc, variable)?;
    bad_rules(alloc, file, error, &variable)
}

/// The refusal of a language.
pub fn bad_language(alloc: Global, file: &Text, error: NotationError) -> Result<Stop, NoMemory>
    ensures { IfOk result (λ stop. stops.language_stop file.now error ≡ Some stop) }
{
    match error {
        NotationError::Memory => Err(NoMemory::Memory),
        NotationError::NotUtf8(before) => refused(
            alloc,
            file,
            Defect::File(FileDefect::NotUtf8(before as u64)),
        ),
        NotationError::Notation { line, kind } => bad_line(alloc, file, line, kind),
        NotationError::Token { line, error } => uncut_line(alloc, file, line, error),
        NotationError::Grammar(error) => bad_grammar(alloc, file, error),
        NotationError::Read { line, error } => unread_line(alloc, file, line, error),
        NotationError::Rules { error, variable } => bad_language_rules(
            alloc, file, error, &variable,
        ),
    }
}
