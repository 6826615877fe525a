//! The header of an extension file.

use sx_term::Text;

/// What the first lines of an extension file state: its name, the name of its language, and the
/// names of the extensions that it uses, in order.
#[derive(Drop)]
pub struct ExtensionHeader {
    pub name: Text,
    pub language: Text,
    pub uses: Vec<Text>,
}
