//! The shapes that an extension adds to.

use sx_term::Shapes;

/// The shapes of the language, those with the extensions before one, and those with that one too.
#[derive(Clone, Copy)]
pub(crate) struct Layers<'a> {
    pub(crate) base: &'a Shapes,
    pub(crate) before: &'a Shapes,
    pub(crate) all: &'a Shapes,
}
