//! The grammar by which rules are read.

ghost use Rattle.std.specs.Prelude.{◌≡◌, ◌++◌, List, IfOk, OnOk, map, length, codes};
ghost use Rattle.std.specs.Str.{IsUtf8};
ghost use Rattle.sx_grammar.specs.Parts.{Parts, line, parts};
ghost use Rattle.sx_grammar.specs.Extended.{widened};
ghost use Rattle.sx_grammar.specs.Tables.{IsWithinLimits, IsGrammarMade};
ghost use Rattle.sx_directives.specs.Spelling.{lex_text};
ghost use Rattle.sx_directives.specs.declared.rows.FormLine.{FormLine as FormData};
ghost use Rattle.sx_notation.specs.RuleParts.{symbol_for, judgement_sort, form_line, apart_line};
ghost use Rattle.sx_notation.specs.RuleParts.{apart_lines, rule_parts};

use std::alloc::Global;
use sx_directives::{FormLine, FormSymbol, SpelledSort};
use sx_grammar::{
    Grammar, GrammarError, GrammarParts, Production, SortLine, Symbol, copy_productions,
};
use sx_term::{LexKind, NoMemory, Text};

/// The text `form ` with the name behind it.
fn form_label(alloc: Global, name: &Text) -> Result<Text, NoMemory>
    ensures { IfOk result (λ t. t ≡ codes "form " ++ name.now) }
{
    let mut label = Vec::from_slice(alloc, b"form ")?;
    label.extend_from_slice(name.bytes())?;
    Text::of_utf8(alloc, &label)
}

/// The symbol of a production that the symbol of a form is.
fn symbol_for(alloc: Global, symbol: &FormSymbol) -> Result<Symbol, NoMemory>
    ensures { IfOk result (λ s. s ≡ symbol_for symbol.now) }
{
    match symbol {
        FormSymbol::Lit(text) => Ok(Symbol::Lit(text.copy(alloc)?)),
        FormSymbol::Place { role: _, sort } => match sort {
            SpelledSort::Lex(kind) => Ok(Symbol::Lex(*kind)),
            SpelledSort::Named { sort, least } => Ok(Symbol::Part {
                sort: sort.copy(alloc)?,
                least: *least,
            }),
        },
    }
}

/// The production that the form is.
fn form_production(alloc: Global, form: &FormLine) -> Result<Production, NoMemory>
    ensures { IfOk result (λ p. line p ≡ form_line form.now) }
{
    let mut symbols = Vec::with_capacity(alloc, form.symbols.len())?;
    for i in 0..form.symbols.len() {
        let symbol = &form.symbols[i];
        symbols.push(symbol_for(alloc, symbol)?)?;
    }
    Ok(Production {
        label: form_label(alloc, &form.name)?,
        sort: Text::of_utf8(alloc, b"a judgement")?,
        level: 0,
        symbols,
    })
}

/// The label of the production of two lexemes of the kind that are to be apart.
fn apart_label(kind: LexKind) -> &'static [u8]
    ensures same { result.now ≡ codes "apart " ++ lex_text kind }
    ensures utf8 { IsUtf8 result.now }
{
    match kind {
        LexKind::Id => b"apart id",
        LexKind::Num => b"apart num",
        LexKind::Str => b"apart str",
    }
}

/// The production of two lexemes of the kind with `!=` between them.
fn apart_production(alloc: Global, kind: LexKind) -> Result<Production, NoMemory>
    ensures { IfOk result (λ p. line p ≡ apart_line kind) }
{
    let mut symbols = Vec::with_capacity(alloc, 3)?;
    symbols.push(Symbol::Lex(kind))?;
    symbols.push(Symbol::Lit(Text::of_utf8(alloc, b"!=")?))?;
    symbols.push(Symbol::Lex(kind))?;
    Ok(Production {
        label: Text::of_utf8(alloc, apart_label(kind))?,
        sort: Text::of_utf8(alloc, b"a judgement")?,
        level: 0,
        symbols,
    })
}

/// Adds the productions of the forms.
fn add_forms(alloc: Global, forms: &[FormLine], into: &mut Vec<Production>) -> Result<(), NoMemory>
    ensures { OnOk result (map line into.new.items ≡ map line into.old.items ++ map form_line
        forms.now) }
{
    for i in 0..forms.len() {
        let form = &forms[i];
        into.push(form_production(alloc, form)?)?;
    }
    Ok(())
}

/// Adds the productions of lexemes that are to be apart.
fn add_aparts(alloc: Global, into: &mut Vec<Production>) -> Result<(), NoMemory>
    ensures { OnOk result (map line into.new.items ≡ map line into.old.items ++ apart_lines) }
{
    into.push(apart_production(alloc, LexKind::Id)?)?;
    into.push(apart_production(alloc, LexKind::Num)?)?;
    into.push(apart_production(alloc, LexKind::Str)?)?;
    Ok(())
}

/// The sort of judgements.
fn judgement_sort(alloc: Global) -> Result<SortLine, NoMemory>
    ensures { IfOk result (λ s. s ≡ judgement_sort) }
{
    Ok(SortLine {
        name: Text::of_utf8(alloc, b"a judgement")?,
        typed: true,
        brackets: None,
    })
}

/// The productions of the forms, and those of lexemes that are to be apart.
fn rule_productions(alloc: Global, forms: &[FormLine]) -> Result<Vec<Production>, NoMemory>
    ensures { IfOk result (λ v. map line v.items ≡ map form_line forms.now ++ apart_lines) }
{
    let mut all = Vec::new(alloc);
    add_forms(alloc, forms, &mut all)?;
    add_aparts(alloc, &mut all)?;
    Ok(all)
}

/// The grammar by which rules are read, with the sorts and productions of the language's grammar, a
/// sort of judgements and these productions; or the first refusal that holds of its parts.
fn with_judgements(
    alloc: Global,
    grammar: &Grammar,
    more: Vec<Production>,
) -> Result<Grammar, GrammarError>
    requires { IsWithinLimits (widened grammar.now.parts judgement_sort (map line more.items)) }
    ensures { IsGrammarMade (widened grammar.now.parts judgement_sort
        (map line more.items)) result }
{
    match judgement_sort(alloc) {
        Ok(sort) => Grammar::with_sort(alloc, grammar, sort, more),
        Err(e) => {
            drop(more);
            Err(GrammarError::from(e))
        }
    }
}

/// The grammar by which rules are read: the sorts and productions of the language's grammar, a sort
/// of judgements, one production for each form, and for each lexical kind one of two lexemes with
/// `!=` between them. The names of the sort and of these productions have a blank, so no sort and
/// no production of a language file has them. Or the first refusal that holds of these parts.
pub fn rule_grammar(
    alloc: Global,
    grammar: &Grammar,
    forms: &[FormLine],
) -> Result<Grammar, GrammarError>
    requires { IsWithinLimits (rule_parts grammar.now.parts forms.now) }
    ensures { IsGrammarMade (rule_parts grammar.now.parts forms.now) result }
{
    let more = rule_productions(alloc, forms)?;
    with_judgements(alloc, grammar, more)
}

/// The last productions of a grammar by which rules are read: those of so many forms, and three for
/// `!=`.
fn last_productions(
    alloc: Global,
    by_rules: &GrammarParts,
    forms: usize,
) -> Result<Vec<Production>, NoMemory>
    requires { (lines : List FormData) × (p : Parts) ×
        (parts by_rules.now ≡ rule_parts p lines) × (length lines ≡ forms) }
    ensures { IfOk result (λ v. (lines : List FormData) (p : Parts) →
        parts by_rules.now ≡ rule_parts p lines → length lines ≡ forms →
        map line v.items ≡ map form_line lines ++ apart_lines) }
{
    let first = by_rules.productions.len() - (forms + 3);
    let last = by_rules.productions.split_at(first).1;
    copy_productions(alloc, last)
}

/// The grammar by which the rules of an extension are read: that of `rule_grammar`, where the
/// productions of the extended grammar stand in place of those before the productions of its forms,
/// of which there are so many. Or the first refusal that holds of its parts.
pub fn extended_rule_grammar(
    alloc: Global,
    grammar: &Grammar,
    rule_grammar: &Grammar,
    forms: usize,
) -> Result<Grammar, GrammarError>
    requires { (lines : List FormData) × (p : Parts) ×
        (rule_grammar.now.parts ≡ rule_parts p lines) × (length lines ≡ forms) ×
        IsWithinLimits (rule_parts grammar.now.parts lines) }
    ensures { (lines : List FormData) (p : Parts) →
        rule_grammar.now.parts ≡ rule_parts p lines → length lines ≡ forms →
        IsGrammarMade (rule_parts grammar.now.parts lines) result }
{
    let more = last_productions(alloc, rule_grammar.parts(), forms)?;
    with_judgements(alloc, grammar, more)
}
