//! What stands after a refusal.

use crate::accept_error::AcceptError;
use sx_rewrite::Accepted;

/// The set as it was given, and why the extension was not added to it.
#[derive(Drop)]
pub struct Refused {
    pub set: Accepted,
    pub error: AcceptError,
}
