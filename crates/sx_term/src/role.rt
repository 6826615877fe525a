//! Roles of places.

/// What a place of a form of judgements is for: an input, the subject, which is an input too, or an
/// output.
#[derive(Clone, Copy, PartialEq, Eq, Debug)]
pub enum Role {
    In,
    Sub,
    Out,
}
