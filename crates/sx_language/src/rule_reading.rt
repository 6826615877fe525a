//! Reading the lines of a rule.

ghost use Rattle.std.specs.Prelude.{◌≡◌, ◌+◌, ◌*◌, ◌<◌, ◌≤◌, ◌^◌, [], map, length, option_map};
ghost use Rattle.std.specs.Prelude.{IfOk, IfErr};
ghost use Rattle.std.specs.List.{AllByRecursion};
ghost use Rattle.sx_term.specs.Term.{tree};
ghost use Rattle.sx_rules.specs.Rules.{holds};
ghost use Rattle.sx_rules.specs.Views as view;
ghost use Rattle.sx_outline.specs.Stages.{numbered_rule_line, rule_data};
ghost use Rattle.sx_language.specs.RuleLine.{CanReadRules, IsLine};
ghost use Rattle.sx_outline.specs.Sized.{HasShortLines};
ghost use Rattle.sx_language.specs.RuleTexts.{ArePremises, AreStated, IsRule};
ghost use Rattle.sx_language.specs.RuleTexts.{IsBadPremise, IsBadConclusion, IsBadRule, OrMemory};
ghost use Rattle.sx_language.specs.Readers.{reader, AreReaderTables};
ghost use Rattle.sx_term.specs.Limits.{most_bytes, most_tokens};

use crate::rule_body::read_body;
use crate::rule_line::read_line;
use crate::rule_reader::RuleReader;
use crate::stem_sorts::sorts_of;
use std::alloc::Global;
use sx_lines::Kind;
use sx_notation::{LineReader, NotationError};
use sx_outline::{RuleLine, RuleLines};
use sx_rules::{Judgement, Premise, Rule};
use sx_term::{Term, Vars};

/// A rule that was read, its body if it has one, and the names of its variables.
#[derive(Drop)]
pub(crate) struct ReadRule {
    pub(crate) rule: Rule,
    pub(crate) body: Option<Term>,
    pub(crate) names: Vars,
}

/// What the lines of a rule state.
#[derive(Drop)]
struct Stated {
    premises: Vec<Premise>,
    conclusion: Judgement,
    body: Option<Term>,
}

/// The premises that the lines state.
fn read_premises(
    alloc: Global,
    by: &RuleReader,
    tables: &LineReader,
    lines: &[RuleLine],
    vars: &mut Vars,
) -> Result<Vec<Premise>, NotationError>
    requires can { CanReadRules (reader by.now) }
    requires tables { AreReaderTables (reader by.now) tables.now }
    requires short { AllByRecursion (λ l. length l.text ≤ most_bytes) lines.now }
    requires few { length lines.now ≤ most_bytes }
    requires none { vars.now ≡ [] }
    ensures read { IfOk result (λ v. ArePremises (reader by.now)
        (map numbered_rule_line lines.now) []
        vars.new (map view.premise v.items)) }
    ensures refused { IfErr result
        (OrMemory (IsBadPremise (reader by.now) (map numbered_rule_line lines.now) [])) }
    ensures grows { length vars.new ≤ most_tokens * length lines.now }
{
    let mut premises = Vec::with_capacity(alloc, lines.len())?;
    for i in 0..lines.len() {
        let line = &lines[i];
        match read_line(alloc, by, tables, line, vars) {
            Ok(premise) => premises.push(premise)?,
            Err(error) => {
                drop(premises);
                return Err(error);
            }
        }
    }
    Ok(premises)
}

/// The judgement that the line states.
fn read_conclusion(
    alloc: Global,
    by: &RuleReader,
    tables: &LineReader,
    line: &RuleLine,
    vars: &mut Vars,
) -> Result<Judgement, NotationError>
    requires can { CanReadRules (reader by.now) }
    requires tables { AreReaderTables (reader by.now) tables.now }
    requires short { length line.now.text ≤ most_bytes }
    requires room { length vars.now + most_tokens < 2 ^ 32 }
    ensures read { IfOk result (λ j. IsLine (reader by.now) line.now.text vars.old vars.new
        (holds (view.judgement j))) }
    ensures refused { IfErr result
        (IsBadConclusion (reader by.now) (numbered_rule_line line.now) vars.old) }
    ensures grows { length vars.new ≤ length vars.old + most_tokens }
{
    match read_line(alloc, by, tables, line, vars) {
        Ok(Premise::Holds(judgement)) => Ok(judgement),
        Ok(Premise::Apart(_, _)) => Err(NotationError::Notation {
            line: line.number,
            kind: Kind::Shape,
        }),
        Err(error) => Err(error),
    }
}

/// The premises, the conclusion and the body that the lines state, one after the other.
fn read_stated(
    alloc: Global,
    by: &RuleReader,
    tables: &LineReader,
    lines: &RuleLines,
    vars: &mut Vars,
) -> Result<Stated, NotationError>
    requires can { CanReadRules (reader by.now) }
    requires tables { AreReaderTables (reader by.now) tables.now }
    requires short { HasShortLines most_bytes (rule_data lines.now) }
    requires none { vars.now ≡ [] }
    ensures read { IfOk result (λ x. AreStated (reader by.now) (rule_data lines.now) vars.new
        (map view.premise x.premises.items) (view.judgement x.conclusion)
        (option_map tree x.body)) }
    ensures refused { IfErr result (OrMemory (IsBadRule (reader by.now) (rule_data lines.now))) }
    ensures few { length vars.new < 2 ^ 32 }
{
    let premises = read_premises(alloc, by, tables, &lines.premises, vars)?;
    let conclusion = match read_conclusion(alloc, by, tables, &lines.conclusion, vars) {
        Ok(conclusion) => conclusion,
        Err(error) => {
            drop(premises);
            return Err(error);
        }
    };
    match read_body(alloc, by, tables, conclusion.form, lines, vars) {
        Ok(body) => Ok(Stated {
            premises,
            conclusion,
            body,
        }),
        Err(error) => {
            drop(conclusion);
            drop(premises);
            Err(error)
        }
    }
}

/// The rule that the lines state.
pub(crate) fn read_rule(
    alloc: Global,
    by: &RuleReader,
    tables: &LineReader,
    lines: &RuleLines,
) -> Result<ReadRule, NotationError>
    requires can { CanReadRules (reader by.now) }
    requires tables { AreReaderTables (reader by.now) tables.now }
    requires short { HasShortLines most_bytes (rule_data lines.now) }
    ensures read { IfOk result (λ x. IsRule (reader by.now) (rule_data lines.now) x.names
        (view.named x.rule) (option_map tree x.body)) }
    ensures refused { IfErr result (OrMemory (IsBadRule (reader by.now) (rule_data lines.now))) }
{
    let mut names = Vars::new(alloc);
    let stated = match read_stated(alloc, by, tables, lines, &mut names) {
        Ok(stated) => stated,
        Err(error) => {
            drop(names);
            return Err(error);
        }
    };
    let vars = match sorts_of(alloc, tables.stems(), &names) {
        Ok(vars) => vars,
        Err(_) => {
            drop(stated);
            drop(names);
            return Err(NotationError::Memory);
        }
    };
    let name = match lines.name.copy(alloc) {
        Ok(name) => name,
        Err(_) => {
            drop(vars);
            drop(stated);
            drop(names);
            return Err(NotationError::Memory);
        }
    };
    Ok(ReadRule {
        rule: Rule {
            name,
            vars,
            premises: stated.premises,
            conclusion: stated.conclusion,
        },
        body: stated.body,
        names,
    })
}
