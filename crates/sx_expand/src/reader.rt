//! Terms by number, with their plain images.

use sx_arena::Arena;
use sx_images::Images;

/// The terms so far, each named by a number, and what is known of their plain images.
#[derive(Drop)]
pub(crate) struct Reader {
    pub arena: Arena,
    pub images: Images,
}
