//! Finding main forms.

ghost use Rattle.std.specs.Prelude.{ℕ, List, [], ◌∷◌, MatchOption};
ghost use Rattle.sx_term.specs.declared.lex_kind.LexKind.TheVariants as kinds;
ghost use Rattle.sx_outline.specs.declared.main_form.MainForm.{MainForm as MainFormOf};
ghost use Rattle.sx_outline.specs.Fitting.{IsConstructor, IsMainOf, Kid, of_kind, of_sort};
ghost use Rattle.sx_outline.specs.MainSorts.{AreConstructors, AreMainSorts, IsOneName};
ghost use Rattle.sx_outline.specs.View.{known};

use crate::kids::{are_add_kids, has_no_kid};
use crate::known::Known;
use crate::main_form::MainForm;
use crate::role_places::{count_at, one_at};
use sx_directives::{FormSymbol, MainLine, SpelledSort};
use sx_term::{Role, Text};

/// The name of the sort of the one place with this role, where there is just one, and it is of no
/// lexical sort.
fn one_name(symbols: &[FormSymbol], role: Role) -> Option<&Text>
    ensures { MatchOption result ((name : List ℕ) → IsOneName symbols.now role name → ⊥)
        (λ name. IsOneName symbols.now role name.now) }
{
    match one_at(symbols, role) {
        Some(SpelledSort::Named { sort, least: _ }) => Some(sort),
        _ => None,
    }
}

/// The names of the sorts of environments and of signatures, where the symbols are those of a main
/// form.
fn main_sorts(symbols: &[FormSymbol]) -> Option<(&Text, &Text)>
    ensures { MatchOption result ((environment signature : List ℕ) →
        AreMainSorts symbols.now environment signature → ⊥)
        (λ x. AreMainSorts symbols.now x.0.now x.1.now) }
{
    if count_at(symbols, Role::Sub) != 1 {
        return None;
    }
    match one_name(symbols, Role::In) {
        Some(environment) => match one_name(symbols, Role::Out) {
            Some(signature) => Some((environment, signature)),
            None => None,
        },
        None => None,
    }
}

impl Known {
    /// The number of the production with this label, where it has this sort.
    fn constructor(&self, label: &Text, sort: &Text) -> Option<usize>
        ensures { MatchOption result ((number : ℕ) (kids : List Kid) →
            IsConstructor (known self.now) label.now number sort.now kids → ⊥)
            (λ number. (kids : List Kid) × IsConstructor (known self.now) label.now number sort.now
            kids) }
    {
        match self.tables.labels.place(label) {
            Some(place) => {
                if self.rows.productions[place].sort.same(sort) {
                    return Some(place);
                }
                None
            }
            None => None,
        }
    }

    /// The number of the production with this label, where it makes an environment of nothing.
    fn empty_of(&self, label: &Text, environment: &Text) -> Option<u32>
        ensures { MatchOption result ((number : ℕ) →
            IsConstructor (known self.now) label.now number environment.now [] → ⊥)
            (λ number. IsConstructor (known self.now) label.now number environment.now []) }
    {
        match self.constructor(label, environment) {
            Some(number) => {
                if has_no_kid(&self.rows.productions[number].symbols) {
                    return Some(number as u32);
                }
                None
            }
            None => None,
        }
    }

    /// The number of the production with this label, where it makes an environment of one, a name
    /// and a signature.
    fn add_of(&self, label: &Text, environment: &Text, signature: &Text) -> Option<u32>
        ensures { MatchOption result ((number : ℕ) →
            IsConstructor (known self.now) label.now number environment.now
            (of_sort environment.now ∷ of_kind kinds.Id ∷ of_sort signature.now ∷ []) → ⊥)
            (λ number. IsConstructor (known self.now) label.now number environment.now
            (of_sort environment.now ∷ of_kind kinds.Id ∷ of_sort signature.now ∷ [])) }
    {
        match self.constructor(label, environment) {
            Some(number) => {
                let symbols = &self.rows.productions[number].symbols;
                if are_add_kids(symbols, environment, signature) {
                    return Some(number as u32);
                }
                None
            }
            None => None,
        }
    }

    /// The numbers of the empty constructor that the row names and of the one that adds, where they
    /// are such.
    fn constructors(
        &self,
        row: &MainLine,
        environment: &Text,
        signature: &Text,
    ) -> Option<(u32, u32)>
        ensures { MatchOption result ((empty add : ℕ) →
            AreConstructors (known self.now) row.now environment.now signature.now empty add → ⊥)
            (λ x. AreConstructors (known self.now) row.now environment.now signature.now x.0 x.1) }
    {
        match self.empty_of(&row.empty, environment) {
            Some(empty) => match self.add_of(&row.add, environment, signature) {
                Some(add) => Some((empty, add)),
                None => None,
            },
            None => None,
        }
    }

    /// The main form that the row names, where it is one.
    pub(crate) fn main_of(&self, row: &MainLine) -> Option<MainForm>
        ensures { MatchOption result ((main : MainFormOf) → IsMainOf (known self.now) row.now main →
            ⊥) (λ main. IsMainOf (known self.now) row.now main) }
    {
        match self.tables.forms.place(&row.form) {
            Some(form) => match main_sorts(&self.rows.forms[form].symbols) {
                Some((environment, signature)) => {
                    if !self.is_plain(signature) {
                        return None;
                    }
                    match self.constructors(row, environment, signature) {
                        Some((empty, add)) => Some(MainForm {
                            form: form as u32,
                            empty,
                            add,
                        }),
                        None => None,
                    }
                }
                None => None,
            },
            None => None,
        }
    }
}
