//! Spans in order.

use sx_earley::Span;

/// A completed span, its width and the rank of its sort.
#[derive(Clone, Copy)]
pub(crate) struct Ordered {
    pub(crate) width: u32,
    pub(crate) rank: u32,
    pub(crate) span: Span,
}
