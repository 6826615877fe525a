//! Reading the names of variables.

ghost use Rattle.std.specs.Prelude.{MatchResult};
ghost use Rattle.sx_grammar.specs.Parts.{texts};
ghost use Rattle.sx_directives.specs.Spelling.{EachSpelled, IsVariable, NoneIs};

use crate::part_texts::variable_of;
use crate::row_error::RowError;
use std::alloc::Global;
use sx_term::Text;

/// The variables that the parts spell.
pub(crate) fn variables_of(alloc: Global, parts: &[&[u8]]) -> Result<Vec<Text>, RowError>
    ensures { MatchResult result (λ names. EachSpelled IsVariable (texts parts.now) names.items)
        (NoneIs (EachSpelled IsVariable (texts parts.now))) }
{
    let mut names = Vec::new(alloc);
    for part in parts {
        match variable_of(alloc, *part) {
            Ok(name) => names.push(name)?,
            Err(e) => return Err(e),
        }
    }
    Ok(names)
}
