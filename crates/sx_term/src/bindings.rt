//! Finite maps from variables to terms.

ghost use Rattle.std.specs.Prelude.{◌≡◌, ℕ, ◌+◌, ◌-◌, ◌<◌, ◌≤◌, ◌==◌, ◌++◌, ◌∷◌, []};
ghost use Rattle.std.specs.Prelude.{IfSome, OnOk, OnErr, MatchOption, Some, None};
ghost use Rattle.std.specs.Prelude.{if◌then◌else◌, length, take};
ghost use Rattle.sx_term.specs.Tree.{depth_of};
ghost use Rattle.sx_term.specs.Term.{tree};
ghost use Rattle.sx_term.specs.Bindings.{lookup};
ghost use Rattle.sx_term.specs.Bound.{bindings, IsFirstAt};
ghost use Rattle.sx_term.specs.Limits.{most_depth};

use crate::binding::Binding;
use crate::no_memory::NoMemory;
use crate::term::Term;
use std::alloc::Global;

/// A finite map from variables to terms. A variable is its number, and each term that it is bound
/// to has depth 1,000 at most. An entry is found by going through them, since a rule has few
/// variables.
#[derive(Drop)]
pub struct Bindings {
    pub(crate) entries: Vec<Binding>,
}

impl Bindings {
    /// The map that binds nothing. It takes no memory.
    pub fn new(alloc: Global) -> Bindings
        ensures { bindings result ≡ [] }
    {
        Bindings {
            entries: Vec::new(alloc),
        }
    }

    /// The place of the first entry of the variable, or None where it is not bound.
    fn find(&self, variable: u32) -> Option<usize>
        ensures { MatchOption result (lookup (bindings self.now) variable ≡ None)
            (λ place. IsFirstAt (bindings self.now) variable place) }
    {
        for i in 0..self.entries.len() {
            if self.entries[i].variable == variable {
                return Some(i);
            }
        }
        None
    }

    /// The entry of the variable, or None where it is not bound.
    pub(crate) fn entry(&self, variable: u32) -> Option<&Binding>
        ensures { MatchOption result (lookup (bindings self.now) variable ≡ None)
            (λ b. lookup (bindings self.now) variable ≡ Some (tree b.now.term)) }
    {
        match self.find(variable) {
            Some(i) => Some(&self.entries[i]),
            None => None,
        }
    }

    /// What the variable is bound to, or None where it is not bound.
    pub fn get(&self, variable: u32) -> Option<&Term>
        ensures value { MatchOption result (lookup (bindings self.now) variable ≡ None)
            (λ term. lookup (bindings self.now) variable ≡ Some (tree term.now)) }
        ensures depth { IfSome result (λ term. depth_of (tree term.now) ≤ most_depth) }
    {
        match self.entry(variable) {
            Some(binding) => Some(&binding.term),
            None => None,
        }
    }

    /// Binds the variable to the term, in place of what it was bound to. Where memory is lacking,
    /// the map is as before.
    pub fn set(&mut self, variable: u32, term: Term) -> Result<(), NoMemory>
        requires { depth_of (tree term) ≤ most_depth }
        ensures ok { OnOk result ((v : ℕ) → lookup (bindings self.new) v
            ≡ (if v == variable then Some (tree term) else lookup (bindings self.old) v)) }
        ensures err { OnErr result (bindings self.new ≡ bindings self.old) }
    {
        match self.find(variable) {
            Some(i) => {
                self.entries[i] = Binding::new(variable, term);
                Ok(())
            }
            None => { self.push(variable, term) }
        }
    }

    /// Binds a variable that is not bound. Where memory is lacking, the map is as before.
    pub(crate) fn push(&mut self, variable: u32, term: Term) -> Result<(), NoMemory>
        requires { depth_of (tree term) ≤ most_depth }
        ensures ok { OnOk result (bindings self.new ≡ bindings self.old
            ++ (variable, tree term) ∷ []) }
        ensures err { OnErr result (bindings self.new ≡ bindings self.old) }
    {
        self.entries.push(Binding::new(variable, term))?;
        Ok(())
    }

    /// How many entries there are.
    pub(crate) fn len(&self) -> usize
        ensures { result ≡ length (bindings self.now) }
    {
        self.entries.len()
    }

    /// Drops the entries from this place on.
    pub(crate) fn truncate(&mut self, len: usize)
        ensures { bindings self.new ≡ take len (bindings self.old) }
    {
        self.entries.truncate(len);
    }
}
