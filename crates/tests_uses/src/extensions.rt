//! Extensions of the language `Lam` that are read.

ghost use Rattle.std.specs.Prelude.{◌≡◌, ◌≤◌, ℕ, List, None, length, map, option_map, IfOk};
ghost use Rattle.std.specs.Prelude.{IfSome};
ghost use Rattle.std.specs.List.{AllByRecursion};
ghost use Rattle.sx_term.specs.Term.{tree};
ghost use Rattle.sx_term.specs.Tree.{depth_of};
ghost use Rattle.sx_notation.specs.Language.{IsLanguage};
ghost use Rattle.sx_language.specs.States.{IsLanguageIn};
ghost use Rattle.sx_plain.specs.Views.{table_of};
ghost use Rattle.sx_rewrite.specs.ExtensionView.{ext_rule};
ghost use Rattle.sx_extension.specs.Fitting.{ExtensionIsUsable};

use crate::asserts::assert_same;
use std::alloc::Global;
use std::test::*;
use sx_extension::{Before, ExtensionError, ReadExtension, languages_begin, read_extension};
use sx_language::read_language;
use sx_notation::{Language, NotationError};
use sx_plain::PlainTable;
use sx_rewrite::ExtRule;
use sx_sample::{LAM_LANG, LET_EXT};
use sx_term::{Term, Text, read_core};
use tests_given::extensions::{FOR, NULL, PAIR, SHOW, TWICE};

/// The language.
fn lam(alloc: Global) -> Result<Language, NotationError>
    ensures fit { IfOk result IsLanguage }
    ensures stated { IfOk result (λ l. (name : List ℕ) × (bytes : List ℕ) ×
        IsLanguageIn name bytes l
        × (length bytes ≤ 262144)) }
{
    let bytes = LAM_LANG;
    if bytes.len() > 10_000 {
        return Err(NotationError::Memory);
    }
    match Text::make(alloc, b"Lam") {
        Ok(name) => read_language(alloc, &name, bytes),
        Err(_) => Err(NotationError::Memory),
    }
}

/// The plain table of the language, which has no entries.
fn plain_of(alloc: Global, language: &Language) -> PlainTable
    ensures base { result.base ≡ length language.now.grammar.parts.productions }
    ensures none { table_of result ≡ λ _. None }
{
    language.grammar.facts();
    PlainTable::new(alloc, language.grammar.parts().productions.len() as u32)
}

/// The extension that the bytes state after the language alone.
fn read_first(
    alloc: Global,
    language: &Language,
    bytes: &[u8],
) -> Result<ReadExtension, ExtensionError>
    requires fit { IsLanguage language.now }
    requires stated { (name : List ℕ) × (bytes : List ℕ) × IsLanguageIn name bytes language.now
        × (length bytes ≤ 262144) }
    ensures { IfOk result (λ x. ExtensionIsUsable x.extension) }
{
    if bytes.len() > 10_000 {
        return Err(ExtensionError::Memory);
    }
    languages_begin();
    let plain = plain_of(alloc, language);
    let before = Before {
        language,
        grammar: &language.grammar,
        rule_grammar: &language.rule_grammar,
        rules: &language.rules,
        plain: &plain,
    };
    let read = read_extension(alloc, &before, bytes);
    drop(plain);
    read
}

/// The extension that the bytes state.
pub(crate) fn read(alloc: Global, bytes: &[u8]) -> Result<ReadExtension, ExtensionError>
    ensures { IfOk result (λ x. ExtensionIsUsable x.extension) }
{
    match lam(alloc) {
        Ok(language) => {
            let read = read_first(alloc, &language, bytes);
            drop(language);
            read
        }
        Err(_) => Err(ExtensionError::Memory),
    }
}

/// A rule that is wanted: its name, how many premises it has, and its body as a core text.
#[derive(Clone, Copy)]
struct Wanted {
    name: &'static str,
    premises: usize,
    body: &'static str,
}

/// Whether this is the core text of the term.
fn is_core(alloc: Global, term: &Term, core: &str) -> bool
    requires { depth_of (tree term.now) ≤ 1000 }
{
    match read_core(alloc, core.as_bytes(), 0) {
        Ok((wanted, _)) => {
            let is = term.same(&wanted);
            drop(wanted);
            is
        }
        Err(_) => false,
    }
}

/// Whether this is the rule that is wanted.
fn is_rule(alloc: Global, found: &ExtRule, wanted: &Wanted) -> bool
    requires { IfSome (option_map tree found.now.body) (λ t. depth_of t ≤ 1000) }
{
    match &found.body {
        Some(body) => {
            found.rule.name.as_str() == wanted.name
                && found.rule.premises.len() == wanted.premises
                && is_core(alloc, body, wanted.body)
        }
        None => false,
    }
}

/// Whether these are the rules that are wanted.
fn are_rules(alloc: Global, found: &[ExtRule], wanted: &[Wanted]) -> bool
    requires { AllByRecursion (λ e. IfSome e.body (λ t. depth_of t ≤ 1000))
        (map ext_rule found.now) }
{
    if found.len() != wanted.len() {
        return false;
    }
    for i in 0..found.len() {
        let rule = &found[i];
        if !is_rule(alloc, rule, &wanted[i]) {
            return false;
        }
    }
    true
}

/// Whether the label has this flat body, or none where that is empty.
fn has_flat(alloc: Global, plain: &PlainTable, label: u32, flat: &str) -> bool {
    match plain.flat(label) {
        Some(found) => is_core(alloc, found, flat),
        None => flat.is_empty(),
    }
}

/// Whether the bytes state the extension with this name, which has one production, with this flat
/// body if any, and these rules.
fn states(alloc: Global, bytes: &[u8], name: &str, flat: &str, rules: &[Wanted]) -> bool {
    let read = read(alloc, bytes);
    let answer = match &read {
        Ok(it) => {
            it.extension.name.as_str() == name
                && it.grammar.parts().productions.len() == 17
                && it.names.len() == rules.len()
                && has_flat(alloc, &it.extension.plain, 16, flat)
                && are_rules(alloc, &it.extension.rules, rules)
        }
        Err(_) => false,
    };
    drop(read);
    answer
}

/// A rule with this name, so many premises, and this body.
fn wants(name: &'static str, premises: usize, body: &'static str) -> Wanted {
    Wanted {
        name,
        premises,
        body,
    }
}

#[test]
fn what_extensions_state(rt: HostRuntime) {
    let alloc = rt.alloc();
    let let_rules = [wants("T-Let", 2, "(10 (15 ?3 ?2 ?4) ?1)")];
    let for_rules = [wants("T-For", 2, "(12 (15 ?3 ?2 ?4) ?1)")];
    let show_rules = [
        wants("T-ShowInt", 1, "(13 ?1)"),
        wants("T-ShowStr", 1, "?1"),
    ];
    let null_rules = [
        wants("T-NullI", 0, "(7 n1:0)"),
        wants("T-NullS", 0, "(8 s2:\"\")"),
    ];
    let twice_rules = [wants("T-Twice", 1, "(14 ?1 ?1)")];
    let hold = [
        states(alloc, LET_EXT, "Let", "", &let_rules),
        states(alloc, FOR.text, "For", "", &for_rules),
        states(alloc, SHOW.text, "Show", "", &show_rules),
        states(alloc, NULL.text, "Null", "", &null_rules),
        states(alloc, TWICE.text, "Twice", "", &twice_rules),
        states(alloc, PAIR.text, "Pair", "(5 (5 ?0 (5 ?1 (3))) (3))", &[]),
    ];
    assert_same(&rt, &hold, &[true; 6]);
}
