//! Reading a line that extends a language.

ghost use Rattle.std.specs.Prelude.{MatchResult};
ghost use Rattle.sx_directives.specs.Rows.{IsDirective};
ghost use Rattle.sx_notation.specs.Directives.{IsNoDirective};

use crate::notation_error::NotationError;
use std::alloc::Global;
use sx_directives::{Directive, RowError};
use sx_lines::Kind;

/// What the line with this number states. It is refused, with its number and `Shape`, exactly where
/// it is no `prod` and no `var` line: where its first part is another word, or the parts after it
/// are not as stated.
pub fn read_directive(alloc: Global, line: &[u8], number: u32) -> Result<Directive, NotationError>
    ensures { MatchResult result (IsDirective line.now) (IsNoDirective line.now number) }
{
    match sx_directives::read_directive_row(alloc, line) {
        Ok(directive) => Ok(directive),
        Err(RowError::Memory) => Err(NotationError::Memory),
        Err(RowError::Shape) => Err(NotationError::Notation {
            line: number,
            kind: Kind::Shape,
        }),
    }
}
