//! Plain bodies of an extension.

use sx_term::Term;

/// A plain body: the label of its production, how many parts that has, and the term, in which
/// variable n is part n.
#[derive(Drop)]
pub(crate) struct PlainBody {
    pub(crate) label: u32,
    pub(crate) parts: u32,
    pub(crate) term: Term,
}
