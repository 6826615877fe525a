//! What is wrong with the body of a rule.

/// What is wrong with the body of a rule.
#[derive(Drop)]
pub(crate) enum BodyDefect {
    /// The conclusion has a subject, and no line states a body.
    NoBody,
    /// The conclusion has no subject, and a line states a body.
    BodySort,
    /// Typed syntax that the extension itself adds stands in the body.
    BodyExtended,
}
