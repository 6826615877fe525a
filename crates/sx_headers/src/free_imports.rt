//! The step that compares the names of a module's imports with the literals of its language.

ghost use Rattle.std.specs.Prelude.{◌≤◌, IfSome, IfNone, length};
ghost use Rattle.sx_grammar.specs.Tables.{literals_of};
ghost use Rattle.sx_interface.specs.FreeNames.{AreFree};
ghost use Rattle.sx_steps.specs.Stop.{Gives, IsNoFault};
ghost use Rattle.sx_headers.specs.FreeImports.{IsTakenAt, HasFreeImports};
ghost use Rattle.sx_headers.specs.ReadModule.{module_of};
ghost use Rattle.sx_term.specs.Limits.{most_bytes};

use crate::header_rows::row_line;
use crate::header_stops::bad_line_of_header;
use crate::module_file::ModuleFile;
use std::alloc::Global;
use sx_grammar::Grammar;
use sx_steps::StepError;
use sx_term::Text;

/// The rows that stand before the rows of names: `module` and `language`.
const ROWS_BEFORE: usize = 2;

/// The number of the first of the names that is a literal of the grammar.
fn first_taken(grammar: &Grammar, names: &[Text]) -> Option<usize>
    ensures taken { IfSome result (IsTakenAt (literals_of grammar.now.parts) names.now) }
    ensures free { IfNone result (AreFree (literals_of grammar.now.parts) names.now) }
{
    for i in 0..names.len() {
        let name = &names[i];
        match grammar.literal_number(name.bytes()) {
            Some(_) => return Some(i),
            None => {}
        }
    }
    None
}

/// No import of the module has a literal of the grammar as its name. The first that has one is
/// refused, at its line of the file, which has at most 262,144 bytes.
pub fn check_imports(
    alloc: Global,
    file: &Text,
    source: &ModuleFile,
    grammar: &Grammar,
) -> Result<(), StepError>
    requires { length source.now.bytes.items ≤ most_bytes }
    ensures step { Gives (λ done. done)
        (HasFreeImports file.now (literals_of grammar.now.parts) (module_of source.now)) result }
    ensures no_fault { IsNoFault result }
{
    match first_taken(grammar, &source.header.imports) {
        None => Ok(()),
        Some(number) => {
            let row = ROWS_BEFORE + source.header.uses.len() + number;
            let line = row_line(&source.bytes, row);
            match bad_line_of_header(alloc, file, line) {
                Ok(stop) => Err(StepError::Stopped(stop)),
                Err(_) => Err(StepError::Memory),
            }
        }
    }
}
