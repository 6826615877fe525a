//! What a module is made from.

use sx_accepting::LanguageFile;
use sx_headers::ModuleFile;
use sx_interface::Import;
use sx_term::Text;

/// What a module is made from: the name of its file, what this states, the language that its header
/// names, and its imports, in the order of the header.
#[derive(Clone, Copy)]
pub struct Given<'a> {
    pub file: &'a Text,
    pub source: &'a ModuleFile,
    pub language: &'a LanguageFile,
    pub imports: &'a [Import],
}
