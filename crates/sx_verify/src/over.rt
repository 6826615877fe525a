//! What a module is verified over.

use crate::written_files::WrittenFiles;
use sx_accepting::LanguageFile;
use sx_interface::Import;

/// The interface and the base file of the module, its language, and the interfaces of its imports.
#[derive(Clone, Copy)]
pub(crate) struct Over<'a> {
    pub(crate) written: &'a WrittenFiles,
    pub(crate) language: &'a LanguageFile,
    pub(crate) imports: &'a [Import],
}
