//! What is due after a line of the first reading.

/// What is due after a line.
#[derive(Clone, Copy)]
pub(crate) enum Due {
    /// a line that may declare something
    Row,
    /// the body of a plain pair
    Body,
    /// nothing: a rule has begun, and the declarations are over
    Nothing,
}
