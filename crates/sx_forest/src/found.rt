//! The readings that are found.

use crate::reading::Reading;

/// The only reading, or two of more.
#[derive(Drop)]
pub(crate) enum Found {
    Only(Reading),
    Two(Reading, Reading),
}
