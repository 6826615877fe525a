//! Completed spans.

/// What a span is of: the production with this label, or the bracket pair of the sort with this
/// number.
#[derive(Clone, Copy, PartialEq, Eq, Hash, Debug)]
pub enum SpanOf {
    Node(u32),
    Bracket(u32),
}

/// What is read from one place up to another. Places count tokens from 0.
#[derive(Clone, Copy, PartialEq, Eq, Hash, Debug)]
pub struct Span {
    pub of: SpanOf,
    pub from: u32,
    pub to: u32,
}
