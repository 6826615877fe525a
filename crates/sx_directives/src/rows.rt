//! What lines of a language file or of an extension file state.

use crate::spelled::FormSymbol;
use sx_term::Text;

/// A stem of metavariables and the name of their sort.
#[derive(Drop)]
pub struct VarLine {
    pub stem: Text,
    pub sort: Text,
}

/// A form's name and its symbols in order.
#[derive(Drop)]
pub struct FormLine {
    pub name: Text,
    pub symbols: Vec<FormSymbol>,
}

/// The name of the main form, and the labels of the constructors of an empty environment and of one
/// with one more entry.
#[derive(Drop)]
pub struct MainLine {
    pub form: Text,
    pub empty: Text,
    pub add: Text,
}

/// The label of a production with a plain body, and the names of the variables that stand for its
/// parts, without `~`.
#[derive(Drop)]
pub struct PlainLine {
    pub label: Text,
    pub names: Vec<Text>,
}
