//! New entries, and copies of them.

ghost use Rattle.std.specs.Prelude.{◌≡◌, ℕ, ◌+◌, ◌-◌, ◌<◌, ◌≤◌, ◌↔◌, length, IfOk, get_or};
ghost use Rattle.sx_term.specs.Tree.{depth_of, size_of};
ghost use Rattle.sx_term.specs.Term.{tree};
ghost use Rattle.sx_term.specs.Instances.{Stands};
ghost use Rattle.sx_plain.specs.Uses as spec;
ghost use Rattle.sx_plain.specs.Entries.{body};
ghost use Rattle.sx_term.specs.Limits.{most_depth, most_size};

use crate::entry::Entry;
use crate::part_use::PartUse;
use std::alloc::Global;
use sx_term::{NoMemory, Term};

impl Entry {
    /// The entry with this flat body.
    pub(crate) fn new(alloc: Global, arity: u32, flat: Term) -> Result<Entry, NoMemory>
        requires shallow { depth_of (tree flat) ≤ most_depth }
        requires small { size_of (tree flat) ≤ most_size }
        requires parts { (v : ℕ) → Stands v (tree flat) ↔ (v < arity) }
        ensures { IfOk result (λ e. body e ≡ record { arity = arity; flat = tree flat }) }
    {
        let mut uses = no_uses(alloc, arity)?;
        note(&flat, 0, &mut uses);
        let own = own_size(&flat);
        let depth = flat.depth();
        Ok(Entry {
            arity,
            flat,
            own,
            depth,
            uses,
        })
    }

    /// An equal entry. The one refusal is out of memory.
    pub(crate) fn copy(&self, alloc: Global) -> Result<Entry, NoMemory>
        ensures { IfOk result (λ e. body e ≡ body self.now) }
    {
        let uses = copy_uses(alloc, &self.uses)?;
        Ok(Entry {
            arity: self.arity,
            flat: self.flat.copy(alloc)?,
            own: self.own,
            depth: self.depth,
            uses,
        })
    }
}

/// So many parts, none of which is used.
fn no_uses(alloc: Global, arity: u32) -> Result<Vec<PartUse>, NoMemory>
    ensures { IfOk result (λ us. us.items ≡ spec.unused_parts arity) }
{
    let mut uses = Vec::new(alloc);
    for _ in 0..arity {
        uses.push(PartUse { times: 0, above: 0 })?;
    }
    Ok(uses)
}

/// Equal uses.
fn copy_uses(alloc: Global, uses: &[PartUse]) -> Result<Vec<PartUse>, NoMemory>
    ensures { IfOk result (λ us. us.items ≡ uses.now) }
{
    let mut copies = Vec::with_capacity(alloc, uses.len())?;
    for part in uses {
        copies.push(*part)?;
    }
    Ok(copies)
}

/// The use of the part with this number.
pub(crate) fn use_at(uses: &[PartUse], part: usize) -> PartUse
    requires { part < length uses.now }
    ensures { result ≡ get_or uses.now part result }
{
    uses[part]
}

/// The use of a part that stands once more, under so many nodes.
fn once_more(part: PartUse, above: u32) -> PartUse
    requires { part.times < most_size }
    ensures { result ≡ spec.once_more above part }
{
    PartUse {
        times: part.times + 1,
        above: part.above.max(above),
    }
}

/// Notes which parts stand in the term, which stands under so many nodes.
fn note(flat: &Term, above: u32, uses: &mut Vec<PartUse>)
    requires shallow { above + depth_of (tree flat.now) ≤ most_depth + 1 }
    requires few { spec.most_times uses.old.items + size_of (tree flat.now) ≤ most_size }
    ensures { uses.new.items ≡ spec.noted above (tree flat.now) uses.old.items }
{
    match flat {
        Term::Node { label: _, kids } => {
            for kid in kids {
                note(kid, above + 1, uses);
            }
        }
        Term::Lex { kind: _, text: _ } => {}
        Term::Var(variable) => {
            let i = *variable as usize;
            if i < uses.len() {
                let part = use_at(uses, i);
                uses[i] = once_more(part, above);
            }
        }
    }
}

/// The number of nodes and lexemes of the body.
fn own_size(flat: &Term) -> u64
    requires shallow { depth_of (tree flat.now) ≤ most_depth }
    requires small { size_of (tree flat.now) ≤ most_size }
    ensures { result ≡ spec.own_size (tree flat.now) }
{
    match flat {
        Term::Node { label: _, kids } => {
            let mut all: u64 = 1;
            for kid in kids {
                all += own_size(kid);
            }
            all
        }
        Term::Lex { kind: _, text: _ } => 1,
        Term::Var(_) => 0,
    }
}
