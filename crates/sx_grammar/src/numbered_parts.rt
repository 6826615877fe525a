//! What is numbered of the parts of a grammar.

use crate::numbered::NumberedProduction;

/// The productions with numbers, the ranks of the sorts, and the brackets of the sorts by the
/// numbers of their literals.
#[derive(Drop)]
pub(crate) struct NumberedParts {
    pub(crate) productions: Vec<NumberedProduction>,
    pub(crate) ranks: Vec<u32>,
    pub(crate) brackets: Vec<Option<(u32, u32)>>,
}
