//! Reading a line of a rule.

ghost use Rattle.std.specs.Prelude.{◌≡◌, ◌+◌, ◌<◌, ◌≤◌, ◌^◌, length, IfOk, IfErr};
ghost use Rattle.sx_term.specs.Term.{tree};
ghost use Rattle.sx_earley.specs.Completed.{IsSort};
ghost use Rattle.sx_rules.specs.Views as view;
ghost use Rattle.sx_outline.specs.Stages.{numbered_rule_line};
ghost use Rattle.sx_notation.specs.ReadText.{IsReadLine, IsTextRefused};
ghost use Rattle.sx_language.specs.RuleLine.{judgements, CanReadRules, IsLine, IsBadRuleLine};
ghost use Rattle.sx_language.specs.Readers.{reader, AreReaderTables};
ghost use Rattle.sx_term.specs.Limits.{most_bytes, most_tokens};

use crate::premise::premise_of;
use crate::rule_reader::RuleReader;
use std::alloc::Global;
use sx_grammar::Grammar;
use sx_notation::{LineReader, NotationError};
use sx_outline::RuleLine;
use sx_rules::Premise;
use sx_term::{Sort, Term, Vars};

/// The sort of judgements.
fn judgements(grammar: &Grammar) -> Sort
    requires { 1 ≤ length grammar.now.parts.sorts }
    ensures { result ≡ judgements grammar.now.parts }
{
    grammar.facts();
    Sort::Typed((grammar.parts().sorts.len() - 1) as u32)
}

/// The term of the line's only reading as the sort. Names of variables that `vars` lacks are added.
pub(crate) fn line_term(
    alloc: Global,
    by: &RuleReader,
    tables: &LineReader,
    sort: Sort,
    line: &RuleLine,
    vars: &mut Vars,
) -> Result<Term, NotationError>
    requires sort { IsSort (reader by.now).parts sort }
    requires tables { AreReaderTables (reader by.now) tables.now }
    requires short { length line.now.text ≤ most_bytes }
    requires room { length vars.now + most_tokens < 2 ^ 32 }
    ensures read { IfOk result (λ t. IsReadLine (reader by.now).parts (reader by.now).stems sort
        line.now.text vars.old vars.new (tree t)) }
    ensures refused { IfErr result (IsTextRefused (reader by.now).parts (reader by.now).stems sort
        line.now.text line.now.number) }
    ensures grows { length vars.new ≤ length vars.old + most_tokens }
{
    tables.read_line(alloc, sort, line.text.bytes(), line.number, vars)
}

/// The term that the line spells as a judgement. Names of variables that `vars` lacks are added.
fn judgement_term(
    alloc: Global,
    by: &RuleReader,
    tables: &LineReader,
    line: &RuleLine,
    vars: &mut Vars,
) -> Result<Term, NotationError>
    requires can { CanReadRules (reader by.now) }
    requires tables { AreReaderTables (reader by.now) tables.now }
    requires short { length line.now.text ≤ most_bytes }
    requires room { length vars.now + most_tokens < 2 ^ 32 }
    ensures read { IfOk result (λ t. IsReadLine (reader by.now).parts (reader by.now).stems
        (judgements (reader by.now).parts) line.now.text vars.old vars.new (tree t)) }
    ensures refused { IfErr result (IsBadRuleLine (reader by.now) (numbered_rule_line line.now)) }
    ensures grows { length vars.new ≤ length vars.old + most_tokens }
{
    let sort = judgements(by.grammar);
    line_term(alloc, by, tables, sort, line, vars)
}

/// The premise that the line states. Names of variables that `vars` lacks are added.
pub(crate) fn read_line(
    alloc: Global,
    by: &RuleReader,
    tables: &LineReader,
    line: &RuleLine,
    vars: &mut Vars,
) -> Result<Premise, NotationError>
    requires can { CanReadRules (reader by.now) }
    requires tables { AreReaderTables (reader by.now) tables.now }
    requires short { length line.now.text ≤ most_bytes }
    requires room { length vars.now + most_tokens < 2 ^ 32 }
    ensures read { IfOk result (λ q.
        IsLine (reader by.now) line.now.text vars.old vars.new (view.premise q)) }
    ensures refused { IfErr result (IsBadRuleLine (reader by.now) (numbered_rule_line line.now)) }
    ensures grows { length vars.new ≤ length vars.old + most_tokens }
{
    match judgement_term(alloc, by, tables, line, vars) {
        Ok(term) => Ok(premise_of(by, term)),
        Err(error) => Err(error),
    }
}
