//! Sorts of a grammar.

ghost use Rattle.std.specs.Prelude.{◌≡◌, IfOk};

use std::alloc::Global;
use sx_term::{NoMemory, Text};

/// A sort: its name, whether it is typed, and the literals that open and close its brackets.
#[derive(Drop)]
pub struct SortLine {
    pub name: Text,
    pub typed: bool,
    pub brackets: Option<(Text, Text)>,
}

/// An equal bracket pair, or none.
fn copy_brackets(
    alloc: Global,
    brackets: &Option<(Text, Text)>,
) -> Result<Option<(Text, Text)>, NoMemory>
    ensures { IfOk result (λ b. b ≡ brackets.now) }
{
    match brackets {
        Some((opening, closing)) => Ok(Some((opening.copy(alloc)?, closing.copy(alloc)?))),
        None => Ok(None),
    }
}

impl SortLine {
    /// An equal sort. The one refusal is out of memory.
    pub fn copy(&self, alloc: Global) -> Result<SortLine, NoMemory>
        ensures { IfOk result (λ s. s ≡ self.now) }
    {
        Ok(SortLine {
            name: self.name.copy(alloc)?,
            typed: self.typed,
            brackets: copy_brackets(alloc, &self.brackets)?,
        })
    }
}
