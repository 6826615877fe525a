//! What is known of plain images.

ghost use Rattle.std.specs.Prelude.{List};
ghost use Rattle.sx_term.specs.Tree.{Tree};
ghost use Rattle.sx_plain.specs.Plain.{Table};
ghost use Rattle.sx_images.specs.Images.{AreImages};

use std::alloc::Global;
use sx_plain::Measure;

/// What is known of the plain images of the terms of an arena, by the numbers of the terms: how
/// deep and how big an image is, and its own number.
#[derive(Drop)]
pub struct Images {
    pub(crate) measures: Vec<Option<Measure>>,
    pub(crate) numbers: Vec<Option<usize>>,
}

impl Images {
    /// Nothing is known. It takes no memory.
    pub fn new(alloc: Global) -> Images
        ensures { (table : Table) (ts : List Tree) → AreImages table ts result }
    {
        Images {
            measures: Vec::new(alloc),
            numbers: Vec::new(alloc),
        }
    }
}
