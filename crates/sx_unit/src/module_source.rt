//! What a module is compiled from.

use sx_interface::{Digest, Import, ImportMark};
use sx_typing::BodySource;

/// What a module is compiled from: its source, in a dialect, the digest of the language's file, the
/// extensions in use, in order, with the digests of their files, and the imports of its header, in
/// order.
#[derive(Clone, Copy)]
pub struct ModuleSource<'a> {
    pub source: BodySource<'a>,
    pub digest: &'a Digest,
    pub uses: &'a [ImportMark],
    pub imports: &'a [Import],
}
