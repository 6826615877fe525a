//! What a visit of a walk comes to.

use sx_imports::Walk;
use sx_term::Text;

/// What a visit of a walk comes to.
#[derive(Drop)]
pub(crate) enum Turn {
    /// The walk goes on.
    On(Walk),
    /// All names were left, in this order.
    Whole(Vec<Text>),
}
