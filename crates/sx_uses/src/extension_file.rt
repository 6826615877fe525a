//! The file of an extension, as far as its header is read.

use sx_outline::ExtensionHeader;

/// The bytes of an extension's file, and its header.
#[derive(Drop)]
pub struct ExtensionFile {
    pub bytes: Vec<u8>,
    pub header: ExtensionHeader,
}
