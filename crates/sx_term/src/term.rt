//! Terms: nodes, lexemes and variables.

ghost use Rattle.std.specs.Prelude.{◌≡◌, ◌+◌, ◌-◌, ◌^◌, ◌<◌, ◌≤◌, ◌↔◌, IsTrue, IfOk, IfSome};
ghost use Rattle.std.specs.Prelude.{MatchOption, Some, None, map, min};
ghost use Rattle.sx_term.specs.Tree.{depth_of, greatest_depth, forest, size_of, part_at};
ghost use Rattle.sx_term.specs.Term.{tree};
ghost use Rattle.sx_term.specs.Limits.{most_depth};

use crate::lex_kind::LexKind;
use crate::no_memory::NoMemory;
use crate::path::Path;
use crate::text::Text;
use std::alloc::{AllocError, AllocFailed, Global};

/// A term. The depth of a lexeme, a variable or a node without kids is 1, and that of another node
/// is 1 more than its deepest kid's. Every call that recurs on a term asks for a depth of 1,000 at
/// most.
#[derive(Drop)]
pub enum Term {
    /// A node. Its label is a position in `Shapes::cons`.
    Node { label: u32, kids: Vec<Term> },
    /// A lexeme: a piece of source text of a kind.
    Lex { kind: LexKind, text: Text },
    /// The variable with this number.
    Var(u32),
}

impl Term {
    /// The size: the number of nodes, lexemes and variables, or the greatest u64 where there are
    /// more.
    pub fn size(&self) -> u64
        requires { depth_of (tree self.now) ≤ most_depth }
        ensures { result ≡ min (size_of (tree self.now)) (2 ^ 64 - 1) }
    {
        match self {
            Term::Node { label: _, kids } => {
                let mut total: u64 = 1;
                for kid in kids {
                    total = total.saturating_add(kid.size());
                }
                total
            }
            Term::Lex { kind: _, text: _ } => 1,
            Term::Var(_) => 1,
        }
    }

    /// The depth, from 1.
    pub fn depth(&self) -> u32
        requires { depth_of (tree self.now) ≤ most_depth }
        ensures { result ≡ depth_of (tree self.now) }
    {
        match self {
            Term::Node { label: _, kids } => {
                let mut most = 0;
                for kid in kids {
                    most = most.max(kid.depth());
                }
                most + 1
            }
            Term::Lex { kind: _, text: _ } => 1,
            Term::Var(_) => 1,
        }
    }

    /// Whether the terms are equal: label by label, kid by kid, and lexemes by kind and bytes.
    #[cycle(same)]
    pub fn same(&self, other: &Term) -> bool
        requires self_depth { depth_of (tree self.now) ≤ most_depth }
        requires other_depth { depth_of (tree other.now) ≤ most_depth }
        ensures { IsTrue result ↔ (tree self.now ≡ tree other.now) }
    {
        match (self, other) {
            (
                Term::Node { label, kids },
                Term::Node {
                    label: other_label,
                    kids: other_kids,
                },
            ) => *label == *other_label && same_kids(kids, other_kids),
            (
                Term::Lex { kind, text },
                Term::Lex {
                    kind: other_kind,
                    text: other_text,
                },
            ) => *kind == *other_kind && text.same(other_text),
            (Term::Var(variable), Term::Var(other_variable)) => *variable == *other_variable,
            _ => false,
        }
    }

    /// An equal term. The one refusal is out of memory.
    pub fn copy(&self, alloc: Global) -> Result<Term, NoMemory>
        requires { depth_of (tree self.now) ≤ most_depth }
        ensures { IfOk result (λ t. tree t ≡ tree self.now) }
    {
        match self {
            Term::Node { label, kids } => {
                let mut copies = Vec::with_capacity(alloc, kids.len())?;
                for kid in kids {
                    copies.push(kid.copy(alloc)?)?;
                }
                Ok(Term::Node {
                    label: *label,
                    kids: copies,
                })
            }
            Term::Lex { kind, text } => Ok(Term::Lex {
                kind: *kind,
                text: text.copy(alloc)?,
            }),
            Term::Var(variable) => Ok(Term::Var(*variable)),
        }
    }

    /// The part at the path, or None exactly where the path leaves the tree.
    pub fn at(&self, path: &Path) -> Option<&Term>
        ensures part { MatchOption result (part_at (tree self.now) path.now.steps.items ≡ None)
            (λ part. part_at (tree self.now) path.now.steps.items ≡ Some (tree part.now)) }
        ensures depth { IfSome result (λ part.
            depth_of (tree part.now) ≤ depth_of (tree self.now)) }
    {
        let mut here = self;
        for step in &path.steps {
            match here {
                Term::Node { label: _, kids } => match kids.get(*step) {
                    Some(kid) => here = kid,
                    None => return None,
                },
                _ => return None,
            }
        }
        Some(here)
    }
}

/// Whether there are as many terms, and each is equal to the other's at its place.
#[cycle(same)]
fn same_kids(left: &[Term], right: &[Term]) -> bool
    requires left_depth { greatest_depth (forest (map tree left.now)) ≤ most_depth }
    requires right_depth { greatest_depth (forest (map tree right.now)) ≤ most_depth }
    ensures { IsTrue result ↔ (map tree left.now ≡ map tree right.now) }
{
    if left.len() != right.len() {
        return false;
    }
    for i in 0..left.len() {
        if !left[i].same(&right[i]) {
            return false;
        }
    }
    true
}
