//! The tables of a grammar.

use crate::numbered::NumberedProduction;
use sx_term::{Names, Text};

/// What is made of the parts of a grammar, to read and print by it.
#[derive(Drop)]
pub(crate) struct Tables {
    /// The literals and brackets, each once, in order of first standing.
    pub(crate) literals: Vec<Text>,
    /// The productions with the numbers of their literals and sorts.
    pub(crate) productions: Vec<NumberedProduction>,
    /// The literals that open and close the brackets of each sort, by their numbers.
    pub(crate) brackets: Vec<Option<(u32, u32)>>,
    /// The names of the sorts, to find their numbers.
    pub(crate) sort_names: Names,
    /// The literals, to find their numbers.
    pub(crate) literal_names: Names,
    /// The ranks of the sorts: each steps only to sorts of lower ranks.
    pub(crate) ranks: Vec<u32>,
}
