//! Reading a language.

ghost use Rattle.std.specs.Prelude.{◌≡◌, ◌≤◌, ℕ, List, length, map, None, IfOk, IfErr};
ghost use Rattle.std.specs.List.{AllByRecursion};
ghost use Rattle.sx_grammar.specs.Told.{shapes_of};
ghost use Rattle.sx_rules.specs.Deep.{RulesAreShallow};
ghost use Rattle.sx_rules.specs.Made.{IsRuleSetMade};
ghost use Rattle.sx_rules.specs.Views as view;
ghost use Rattle.sx_outline.specs.Stages.{rule_data};
ghost use Rattle.sx_notation.specs.Language.{IsLanguage};
ghost use Rattle.sx_language.specs.RuleLine.{CanReadRules};
ghost use Rattle.sx_outline.specs.Sized.{HasShortLines};
ghost use Rattle.sx_language.specs.RuleTexts.{AreBareRules, IsFirstBadRule, OrMemory};
ghost use Rattle.sx_language.specs.States.{IsLanguageIn, IsLanguageTextRefused};
ghost use Rattle.sx_language.specs.Prepared.{reader_in, IsPreparedLanguage};
ghost use Rattle.sx_term.specs.Limits.{most_bytes};

use crate::preparing::{Prepared, prepare};
use crate::rule_naming::rule_error;
use crate::rule_reader::RuleReader;
use crate::rules_reading::{ReadRules, read_rules};
use std::alloc::Global;
use sx_grammar::Grammar;
use sx_notation::{Language, NotationError};
use sx_rules::{Form, Rule, RuleError, RuleSet};
use sx_term::Text;

/// The rules of the language.
fn read_prepared(alloc: Global, prepared: &Prepared) -> Result<ReadRules, NotationError>
    requires can { CanReadRules (reader_in prepared.now) }
    requires short { AllByRecursion (λ l. HasShortLines most_bytes (rule_data l))
        prepared.now.rules.items }
    requires bare { AllByRecursion (λ l. l.body ≡ None) (map rule_data prepared.now.rules.items) }
    ensures read { IfOk result (λ x. AreBareRules (reader_in prepared.now)
        (map rule_data prepared.now.rules.items) x.names.items (map view.named x.rules.items)) }
    ensures refused { IfErr result (OrMemory (IsFirstBadRule (reader_in prepared.now)
        (map rule_data prepared.now.rules.items))) }
{
    let by = RuleReader {
        grammar: &prepared.rule_grammar,
        metas: &prepared.metas,
        forms: &prepared.forms,
    };
    read_rules(alloc, &by, &prepared.rules)
}

/// The rule set of the rules, with the constructors of the grammar.
fn rule_set(
    alloc: Global,
    grammar: &Grammar,
    forms: Vec<Form>,
    rules: Vec<Rule>,
) -> Result<RuleSet, RuleError>
    requires { RulesAreShallow (map view.rule rules.items) }
    ensures { IsRuleSetMade (shapes_of grammar.now.parts) (view.forms forms.items)
        (map view.named rules.items) result }
{
    let shapes = grammar.shapes(alloc)?;
    RuleSet::make(alloc, &shapes, forms, rules)
}

/// The language with these rules, which were read of the lines of a language file with this name.
/// The one refusal is that of its rule set.
fn with_rules(
    alloc: Global,
    name: Text,
    prepared: Prepared,
    read: ReadRules,
) -> Result<Language, NotationError>
    requires { AreBareRules (reader_in prepared) (map rule_data prepared.rules.items)
        read.names.items (map view.named read.rules.items) }
    ensures stated { (bytes : List ℕ) → IsPreparedLanguage name bytes prepared →
        IfOk result (IsLanguageIn name bytes) }
    ensures refused { (bytes : List ℕ) → IsPreparedLanguage name bytes prepared →
        IfErr result (IsLanguageTextRefused name bytes) }
    ensures fit { (bytes : List ℕ) → IsPreparedLanguage name bytes prepared →
        IfOk result IsLanguage }
{
    let ReadRules {
        rules,
        bodies,
        names,
    } = read;
    drop(bodies);
    let Prepared {
        grammar,
        rule_grammar,
        metas,
        forms,
        main,
        rules: lines,
    } = prepared;
    let rules = match rule_set(alloc, &grammar, forms, rules) {
        Ok(rules) => rules,
        Err(error) => {
            let refusal = rule_error(alloc, &lines, &names, error);
            drop(name);
            drop(names);
            drop(lines);
            drop(metas);
            drop(rule_grammar);
            drop(grammar);
            return Err(refusal);
        }
    };
    drop(lines);
    Ok(Language {
        name,
        grammar,
        rule_grammar,
        metas,
        rules,
        names,
        main,
    })
}

/// The language that the text states, whose name is to be this one, or why it states none: the
/// refusals of its lines, of its grammars, of the lines of its rules in order, and of its rule set,
/// in this order.
pub fn read_language(alloc: Global, name: &Text, bytes: &[u8]) -> Result<Language, NotationError>
    requires short { length bytes.now ≤ most_bytes }
    ensures stated { IfOk result (IsLanguageIn name.now bytes.now) }
    ensures refused { IfErr result (IsLanguageTextRefused name.now bytes.now) }
    ensures fit { IfOk result IsLanguage }
{
    let own_name = name.copy(alloc)?;
    let prepared = match prepare(alloc, name, bytes) {
        Ok(prepared) => prepared,
        Err(error) => {
            drop(own_name);
            return Err(error);
        }
    };
    match read_prepared(alloc, &prepared) {
        Ok(read) => with_rules(alloc, own_name, prepared, read),
        Err(error) => {
            drop(prepared);
            drop(own_name);
            Err(error)
        }
    }
}
