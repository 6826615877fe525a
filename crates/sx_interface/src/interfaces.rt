//! Interfaces of modules.

use crate::marks::Digest;
use sx_term::Text;

/// An import or an extension, with the digest of its file.
#[derive(Drop)]
pub struct ImportMark {
    /// The name of the import or extension.
    pub name: Text,
    /// The digest of the bytes of the import's interface file, or of the extension's file.
    pub digest: Digest,
}

/// What importers read of a module.
#[derive(Drop)]
pub struct Interface {
    /// The module's name.
    pub module: Text,
    /// The name of its language.
    pub language: Text,
    /// The digest of the language file.
    pub language_digest: Digest,
    /// The extensions of its closure, in order.
    pub uses: Vec<ImportMark>,
    /// The digest of the module's base file.
    pub base_digest: Digest,
    /// Its imports, in the order of its header.
    pub imports: Vec<ImportMark>,
    /// The signature in base syntax, as one line.
    pub signature: Text,
    /// The signature in the syntax of the extensions, as one line.
    pub stated: Text,
}
