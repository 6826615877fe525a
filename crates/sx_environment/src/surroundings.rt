//! What imports are seen from.

use sx_interface::{Digest, ImportMark};
use sx_typing::Dialect;

/// What the imports of a module are seen from: the dialect, the digest of the language's file, and
/// the extensions in use, in order, with the digests of their files.
#[derive(Clone, Copy)]
pub struct Surroundings<'a> {
    pub dialect: Dialect<'a>,
    pub digest: &'a Digest,
    pub uses: &'a [ImportMark],
}
