//! A term that is put for a variable, by its number.

use sx_plain::Measure;

/// How deep and how big the term is that is put for a variable, and its number where it passes no
/// limit. In the place of one that passes a limit stands the number of any term.
#[derive(Clone, Copy)]
pub(crate) struct PutNumber {
    pub number: usize,
    pub measure: Measure,
}
