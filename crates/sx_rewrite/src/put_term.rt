//! A term that is put for a variable.

use sx_plain::Measure;
use sx_term::Term;

/// How deep and how big the term is that is put for a variable, and that term where it
/// passes no limit. In the place of one that passes a limit stands any term.
#[derive(Drop)]
pub(crate) struct PutTerm {
    pub term: Term,
    pub measure: Measure,
}
