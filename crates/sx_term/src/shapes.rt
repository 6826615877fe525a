//! The shapes of constructors, and well sorted terms.

ghost use Rattle.std.specs.Prelude.{◌≡◌, ◌+◌, ◌≤◌, ◌↔◌, ◌++◌, IsTrue, IfOk, List, map};
ghost use Rattle.std.specs.Prelude.{slice_get, MatchOption, Some, None};
ghost use Rattle.sx_term.specs.Tree.{depth_of, greatest_depth, forest};
ghost use Rattle.sx_term.specs.Term.{tree};
ghost use Rattle.sx_term.specs.Sorts.{Shape, HasSort, KidsHaveSorts};
ghost use Rattle.sx_term.specs.Shapes.{shape, shapes};
ghost use Rattle.sx_term.specs.Limits.{most_depth};

use crate::con::Con;
use crate::no_memory::NoMemory;
use crate::sort::Sort;
use crate::term::Term;
use std::alloc::Global;

/// The constructors of the labels 0, 1, 2 and so on, by which terms are well sorted.
#[derive(Drop)]
pub struct Shapes {
    pub cons: Vec<Con>,
}

/// Whether the sorts are equal.
fn same_sort(left: Sort, right: Sort) -> bool
    ensures { IsTrue result ↔ (left ≡ right) }
{
    left == right
}

/// The sort of the variable with this number, or None where there is no such number.
pub fn sort_at(vars: &[Sort], variable: u32) -> Option<Sort>
    ensures { result ≡ slice_get vars.now variable }
{
    let i = variable as usize;
    if i < vars.len() {
        return Some(vars[i]);
    }
    None
}

impl Shapes {
    /// The constructor of the label, or None where there is no such label.
    fn con(&self, label: u32) -> Option<&Con>
        ensures { MatchOption result (slice_get (shapes self.now) label ≡ None)
            (λ con. slice_get (shapes self.now) label ≡ Some (shape con.now)) }
    {
        let i = label as usize;
        if i < self.cons.len() {
            return Some(&self.cons[i]);
        }
        None
    }

    /// Whether the term is well sorted and has the sort, where the variables 0, 1, 2 and so on have
    /// these sorts.
    #[cycle(fits)]
    pub fn fits(&self, term: &Term, vars: &[Sort], sort: Sort) -> bool
        requires { depth_of (tree term.now) ≤ most_depth }
        ensures { IsTrue result ↔ HasSort (shapes self.now) vars.now (tree term.now) sort }
    {
        match term {
            Term::Node { label, kids } => match self.con(*label) {
                Some(con) => {
                    if !same_sort(con.sort, sort) {
                        return false;
                    }
                    kids_fit(self, kids, vars, &con.kids)
                }
                None => false,
            },
            Term::Lex { kind, text: _ } => same_sort(sort, Sort::Lex(*kind)),
            Term::Var(variable) => match sort_at(vars, *variable) {
                Some(found) => same_sort(found, sort),
                None => false,
            },
        }
    }

    /// Equal shapes. The one refusal is out of memory.
    pub fn copy(&self, alloc: Global) -> Result<Shapes, NoMemory>
        ensures { IfOk result (λ x. shapes x ≡ shapes self.now) }
    {
        let mut cons = Vec::new(alloc);
        for con in &self.cons {
            cons.push(con.copy(alloc)?)?;
        }
        Ok(Shapes { cons })
    }

    /// Whether these shapes go on from the others: whether they are those, each at its label, and
    /// then any more.
    pub fn goes_on_from(&self, first: &Shapes) -> bool
        ensures { IsTrue result ↔
            ((new : List Shape) × (shapes self.now ≡ shapes first.now ++ new)) }
    {
        go_on_from(&self.cons, &first.cons)
    }
}

/// Whether the constructors are the first ones and then any more.
fn go_on_from(all: &[Con], first: &[Con]) -> bool
    ensures { IsTrue result ↔
        ((new : List Shape) × (map shape all.now ≡ map shape first.now ++ new)) }
{
    if all.len() < first.len() {
        return false;
    }
    for i in 0..first.len() {
        let con = &first[i];
        if !con.same(&all[i]) {
            return false;
        }
    }
    true
}

/// Whether the terms have these sorts, each its own.
#[cycle(fits)]
fn kids_fit(all: &Shapes, terms: &[Term], vars: &[Sort], sorts: &[Sort]) -> bool
    requires { greatest_depth (forest (map tree terms.now)) ≤ most_depth }
    ensures { IsTrue result ↔ KidsHaveSorts (shapes all.now) vars.now
        (forest (map tree terms.now)) sorts.now }
{
    if terms.len() != sorts.len() {
        return false;
    }
    for i in 0..terms.len() {
        if !all.fits(&terms[i], vars, sorts[i]) {
            return false;
        }
    }
    true
}
