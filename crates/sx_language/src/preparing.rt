//! A language file before the lines of its rules are read.

ghost use Rattle.std.specs.Prelude.{◌≡◌, ◌≤◌, length, IfOk, IfErr};
ghost use Rattle.sx_grammar.specs.Parts.{parts};
ghost use Rattle.sx_grammar.specs.Tables.{IsWithinLimits};
ghost use Rattle.sx_grammar.specs.Made.{IsGrammar};
ghost use Rattle.sx_notation.specs.RuleParts.{rule_parts};
ghost use Rattle.sx_language.specs.States.{IsLanguageTextRefused};
ghost use Rattle.sx_language.specs.Prepared.{whole, IsUsableOutline, IsPreparedLanguage};
ghost use Rattle.sx_language.specs.Prepared.{IsNoGrammars};
ghost use Rattle.sx_term.specs.Limits.{most_bytes};

use crate::stems::metas_of;
use std::alloc::Global;
use sx_directives::FormLine;
use sx_earley::Metas;
use sx_grammar::{Grammar, GrammarParts};
use sx_notation::{NotationError, forms_of, grammar_error, rule_grammar};
use sx_outline::{MainForm, Outline, OutlineError, RuleLines, read_outline};
use sx_rules::Form;
use sx_term::Text;

/// The grammar of a language, what the lines of its rules are read by, its main form, and the lines
/// of its rules.
#[derive(Drop)]
pub(crate) struct Prepared {
    pub(crate) grammar: Grammar,
    pub(crate) rule_grammar: Grammar,
    pub(crate) metas: Metas,
    pub(crate) forms: Vec<Form>,
    pub(crate) main: MainForm,
    pub(crate) rules: Vec<RuleLines>,
}

/// A grammar and the grammar by which rules are read.
#[derive(Drop)]
struct Grammars {
    base: Grammar,
    rule: Grammar,
}

/// The outline of the text.
fn outline_of(alloc: Global, name: &Text, bytes: &[u8]) -> Result<Outline, NotationError>
    requires { length bytes.now ≤ most_bytes }
    ensures usable { IfOk result (IsUsableOutline name.now bytes.now) }
    ensures refused { IfErr result (IsLanguageTextRefused name.now bytes.now) }
{
    match read_outline(alloc, name, bytes) {
        Ok(outline) => Ok(outline),
        Err(OutlineError::Memory) => Err(NotationError::Memory),
        Err(OutlineError::NotUtf8(place)) => Err(NotationError::NotUtf8(place)),
        Err(OutlineError::Notation { line, kind }) => Err(NotationError::Notation { line, kind }),
    }
}

/// The grammar of the parts, and with the forms the grammar by which rules are read.
fn make_grammars(
    alloc: Global,
    from: GrammarParts,
    forms: &[FormLine],
) -> Result<Grammars, NotationError>
    requires limits { IsWithinLimits (parts from) }
    requires rule_limits { IsWithinLimits (rule_parts (parts from) forms.now) }
    ensures base { IfOk result (λ g. (g.base ≡ whole (parts from)) × IsGrammar (parts from)) }
    ensures rule { IfOk result (λ g. (g.rule ≡ whole (rule_parts (parts from) forms.now)) ×
        IsGrammar (rule_parts (parts from) forms.now)) }
    ensures refused { IfErr result (IsNoGrammars (parts from) forms.now) }
{
    let base = match Grammar::make(alloc, from) {
        Ok(base) => base,
        Err(error) => return Err(grammar_error(error)),
    };
    match rule_grammar(alloc, &base, forms) {
        Ok(rule) => Ok(Grammars { base, rule }),
        Err(error) => {
            drop(base);
            Err(grammar_error(error))
        }
    }
}

/// What the text states before the lines of its rules are read.
pub(crate) fn prepare(alloc: Global, name: &Text, bytes: &[u8]) -> Result<Prepared, NotationError>
    requires { length bytes.now ≤ most_bytes }
    ensures prepared { IfOk result (IsPreparedLanguage name.now bytes.now) }
    ensures refused { IfErr result (IsLanguageTextRefused name.now bytes.now) }
{
    let Outline {
        parts,
        vars,
        forms,
        main,
        rules,
    } = match outline_of(alloc, name, bytes) {
        Ok(outline) => outline,
        Err(error) => return Err(error),
    };
    let Grammars { base, rule } = match make_grammars(alloc, parts, &forms) {
        Ok(grammars) => grammars,
        Err(error) => {
            drop(rules);
            drop(forms);
            drop(vars);
            return Err(error);
        }
    };
    let metas = match metas_of(alloc, &base, &vars) {
        Ok(metas) => metas,
        Err(_) => {
            drop(rule);
            drop(base);
            drop(rules);
            drop(forms);
            drop(vars);
            return Err(NotationError::Memory);
        }
    };
    drop(vars);
    match forms_of(alloc, &base, &forms) {
        Ok(Some(known)) => {
            drop(forms);
            Ok(Prepared {
                grammar: base,
                rule_grammar: rule,
                metas,
                forms: known,
                main,
                rules,
            })
        }
        Ok(None) => unreachable!(),
        Err(_) => {
            drop(metas);
            drop(rule);
            drop(base);
            drop(rules);
            drop(forms);
            Err(NotationError::Memory)
        }
    }
}
