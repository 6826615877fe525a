//! Imports.

use crate::interfaces::Interface;
use crate::marks::Digest;

/// What an import's interface file states, with the digest of its bytes.
#[derive(Drop)]
pub struct Import {
    pub interface: Interface,
    pub digest: Digest,
}
