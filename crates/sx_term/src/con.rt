//! Constructors.

ghost use Rattle.std.specs.Prelude.{◌≡◌, ◌↔◌, IsTrue, IfOk};
ghost use Rattle.sx_term.specs.Shapes.{shape};

use crate::no_memory::NoMemory;
use crate::sort::Sort;
use std::alloc::Global;

/// A constructor of terms: the sort of what it makes, and the sorts of its parts in order.
#[derive(Drop)]
pub struct Con {
    pub sort: Sort,
    pub kids: Vec<Sort>,
}

impl Con {
    /// An equal constructor. The one refusal is out of memory.
    pub fn copy(&self, alloc: Global) -> Result<Con, NoMemory>
        ensures { IfOk result (λ x. shape x ≡ shape self.now) }
    {
        Ok(Con {
            sort: self.sort,
            kids: Vec::from_slice(alloc, &self.kids)?,
        })
    }

    /// Whether the constructors are the same.
    pub(crate) fn same(&self, other: &Con) -> bool
        ensures { IsTrue result ↔ (shape self.now ≡ shape other.now) }
    {
        self.sort == other.sort && self.kids == other.kids
    }
}
