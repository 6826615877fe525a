//! Items with the symbols after their dots.

use sx_grammar::{Item, NumberedSymbol};

/// An item, and the symbol after its dot, or None where no symbol stands there.
#[derive(Clone, Copy)]
pub(crate) struct Dotted {
    pub(crate) item: Item,
    pub(crate) symbol: Option<NumberedSymbol>,
}
