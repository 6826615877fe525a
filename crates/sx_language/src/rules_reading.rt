//! Reading the lines of rules.

ghost use Rattle.std.specs.Prelude.{map, option_map, IfOk, IfErr};
ghost use Rattle.std.specs.List.{AllByRecursion};
ghost use Rattle.sx_term.specs.Term.{tree};
ghost use Rattle.sx_rules.specs.Views as view;
ghost use Rattle.sx_outline.specs.Stages.{rule_data};
ghost use Rattle.sx_language.specs.RuleLine.{CanReadRules};
ghost use Rattle.sx_outline.specs.Sized.{HasShortLines};
ghost use Rattle.sx_language.specs.RuleTexts.{AreRules, IsFirstBadRule, OrMemory};
ghost use Rattle.sx_language.specs.Readers.{reader, AreReaderTables};
ghost use Rattle.sx_term.specs.Limits.{most_bytes};

use crate::rule_reader::RuleReader;
use crate::rule_reading::{ReadRule, read_rule};
use std::alloc::Global;
use sx_notation::{LineReader, NotationError};
use sx_outline::RuleLines;
use sx_rules::Rule;
use sx_term::{Term, Vars};

/// Rules that were read, and for each its body, if it has one, and the names of its variables.
#[derive(Drop)]
pub struct ReadRules {
    pub rules: Vec<Rule>,
    pub bodies: Vec<Option<Term>>,
    pub names: Vec<Vars>,
}

/// The rules that the lines state, read by the tables.
fn read_each(
    alloc: Global,
    by: &RuleReader,
    tables: &LineReader,
    lines: &[RuleLines],
) -> Result<ReadRules, NotationError>
    requires can { CanReadRules (reader by.now) }
    requires tables { AreReaderTables (reader by.now) tables.now }
    requires short { AllByRecursion (λ l. HasShortLines most_bytes (rule_data l)) lines.now }
    ensures read { IfOk result (λ x. AreRules (reader by.now) (map rule_data lines.now)
        x.names.items (map view.named x.rules.items) (map (option_map tree) x.bodies.items)) }
    ensures refused { IfErr result
        (OrMemory (IsFirstBadRule (reader by.now) (map rule_data lines.now))) }
{
    let mut rules = Vec::with_capacity(alloc, lines.len())?;
    let mut bodies = Vec::with_capacity(alloc, lines.len())?;
    let mut names = Vec::with_capacity(alloc, lines.len())?;
    for i in 0..lines.len() {
        let here = &lines[i];
        match read_rule(alloc, by, tables, here) {
            Ok(
                ReadRule {
                    rule,
                    body,
                    names: named,
                },
            ) => {
                rules.push(rule)?;
                bodies.push(body)?;
                names.push(named)?;
            }
            Err(error) => {
                drop(names);
                drop(bodies);
                drop(rules);
                return Err(error);
            }
        }
    }
    Ok(ReadRules {
        rules,
        bodies,
        names,
    })
}

/// The rules that the lines state, each with its body and the names of its variables; or why the
/// first bad line of the first bad rule is refused. The lines of a rule are read in order: its
/// premises, its conclusion, and its body, which is not read where the conclusion has no subject.
pub fn read_rules(
    alloc: Global,
    by: &RuleReader,
    lines: &[RuleLines],
) -> Result<ReadRules, NotationError>
    requires can { CanReadRules (reader by.now) }
    requires short { AllByRecursion (λ l. HasShortLines most_bytes (rule_data l)) lines.now }
    ensures read { IfOk result (λ x. AreRules (reader by.now) (map rule_data lines.now)
        x.names.items (map view.named x.rules.items) (map (option_map tree) x.bodies.items)) }
    ensures refused { IfErr result
        (OrMemory (IsFirstBadRule (reader by.now) (map rule_data lines.now))) }
{
    let tables = LineReader::new(alloc, by.grammar, by.metas)?;
    let read = read_each(alloc, by, &tables, lines);
    drop(tables);
    read
}
