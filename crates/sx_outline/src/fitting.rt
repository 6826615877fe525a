//! Whether rows fit what a file declares.

ghost use Rattle.std.specs.Prelude.{◌≡◌, ◌↔◌, IsTrue, IfOk, take, Contains, option_map};
ghost use Rattle.std.specs.List.{AllByRecursion};
ghost use Rattle.sx_term.specs.Roles as roles;
ghost use Rattle.sx_outline.specs.Declarations.{Declared};
ghost use Rattle.sx_outline.specs.Fitting.{RowFits, HasOneSubjectSymbol, IsKnownSort, IsPlain};
ghost use Rattle.sx_outline.specs.Fitting.{RolePlaceFits};
ghost use Rattle.sx_outline.specs.Fitting.{SymbolFits, declared_form_names, sort_named, stems};
ghost use Rattle.sx_outline.specs.View.{known};

use crate::known::Known;
use crate::role_places::count_at;
use std::alloc::Global;
use sx_directives::{FormLine, FormSymbol, Row, SpelledSort, VarLine, lexical_kind};
use sx_term::{NoMemory, Role, Text};

/// Whether the place is for a subject.
fn is_sub(role: Role) -> bool
    ensures { result ≡ roles.is_sub role }
{
    match role {
        Role::In => false,
        Role::Sub => true,
        Role::Out => false,
    }
}

impl Known {
    /// Whether the first sort with this name is typed.
    pub(crate) fn typed_of(&self, name: &Text) -> Option<bool>
        ensures { result ≡ option_map (λ s. s.typed) (sort_named (known self.now) name.now) }
    {
        match self.tables.sorts.place(name) {
            Some(place) => Some(self.rows.sorts[place].typed),
            None => None,
        }
    }

    /// Whether the first sort with this name is plain.
    pub(crate) fn is_plain(&self, name: &Text) -> bool
        ensures { IsTrue result ↔ IsPlain (known self.now) name.now }
    {
        match self.typed_of(name) {
            Some(typed) => !typed,
            None => false,
        }
    }

    /// Whether the name is that of a sort.
    fn is_known_sort(&self, name: &Text) -> bool
        ensures { IsTrue result ↔ IsKnownSort (known self.now) name.now }
    {
        match lexical_kind(name.bytes()) {
            Some(_) => true,
            None => self.tables.sorts.place(name).is_some(),
        }
    }

    /// Whether a place with this role may have this sort.
    fn place_fits(&self, role: Role, sort: &SpelledSort) -> bool
        ensures { IsTrue result ↔ RolePlaceFits (known self.now) role sort.now }
    {
        match sort {
            SpelledSort::Lex(_) => !is_sub(role),
            SpelledSort::Named { sort, least: _ } => match self.typed_of(sort) {
                Some(typed) => typed == is_sub(role),
                None => true,
            },
        }
    }

    /// Whether the symbol may stand in a form.
    fn symbol_fits(&self, symbol: &FormSymbol) -> bool
        ensures { IsTrue result ↔ SymbolFits (known self.now) symbol.now }
    {
        match symbol {
            FormSymbol::Lit(_) => true,
            FormSymbol::Place { role, sort } => self.place_fits(*role, sort),
        }
    }

    /// Whether each of the symbols may stand in a form.
    fn symbols_fit(&self, symbols: &[FormSymbol]) -> bool
        ensures { IsTrue result ↔ AllByRecursion (SymbolFits (known self.now)) symbols.now }
    {
        for i in 0..symbols.len() {
            if !self.symbol_fits(&symbols[i]) {
                return false;
            }
        }
        true
    }

    /// Whether the stem is none of the first stems, so many, and its sort is known.
    fn var_fits(&self, vars: usize, var: &VarLine) -> bool
        ensures { IsTrue result
            ↔ ((Contains (take vars (stems (known self.now))) var.now.stem → ⊥) ×
            IsKnownSort (known self.now) var.now.sort) }
    {
        if self.tables.stems.is_before(vars, &var.stem) {
            return false;
        }
        self.is_known_sort(&var.sort)
    }

    /// Whether the name is none of those of the first forms, so many, each symbol fits, and there
    /// is at most one subject.
    fn form_fits(&self, forms: usize, form: &FormLine) -> bool
        ensures { IsTrue result
            ↔ ((Contains (take forms (declared_form_names (known self.now))) form.now.name → ⊥)
            × AllByRecursion (SymbolFits (known self.now)) form.now.symbols.items ×
            HasOneSubjectSymbol form.now.symbols.items) }
    {
        if self.tables.forms.is_before(forms, &form.name) {
            return false;
        }
        self.symbols_fit(&form.symbols) && count_at(&form.symbols, Role::Sub) <= 1
    }

    /// Whether the name is none of those that are used.
    fn use_fits(&self, name: &Text) -> bool
        ensures { IsTrue result ↔ (Contains (known self.now).uses name.now → ⊥) }
    {
        match self.tables.uses.place(name) {
            Some(_) => false,
            None => true,
        }
    }

    /// Whether the row fits after the first forms and stems, so many of each.
    pub(crate) fn fits(
        &self,
        alloc: Global,
        forms: usize,
        vars: usize,
        row: &Row,
    ) -> Result<bool, NoMemory>
        ensures { (before : Declared) → before.forms ≡ take forms (known self.now).forms →
            before.vars ≡ take vars (known self.now).vars
            → IfOk result (λ fits. IsTrue fits ↔ RowFits (known self.now) before row.now) }
    {
        match row {
            Row::Var(var) => Ok(self.var_fits(vars, var)),
            Row::Form(form) => Ok(self.form_fits(forms, form)),
            Row::Use(name) => Ok(self.use_fits(name)),
            Row::Plain(plain) => self.plain_fits(alloc, plain),
            Row::Language(_)
            | Row::Sort(_)
            | Row::Prod(_)
            | Row::Main(_)
            | Row::Rule(_)
            | Row::Bar
            | Row::End
            | Row::Extension(_)
            | Row::To(_) => Ok(true),
        }
    }
}
