//! What is read of a derivation.

/// The numbers of the outputs of what a derivation derives, and, where the derivation is needed,
/// the number of the subject of what it is lowered to, or None where that has none.
#[derive(Drop)]
pub(crate) struct Read {
    pub outputs: Vec<usize>,
    pub subject: Option<usize>,
}
