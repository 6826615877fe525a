//! Plain images of the terms of an arena: the image of each term is made once, and named by a
//! number as the term is.
//!
//! - `Images` keeps what is known of plain images, by the numbers of the terms.
//! - `Images::lower` tells the number of the plain image of a term, or which limit it passes.
//! - `Images::measure` tells how deep and how big the plain image of a term is.
//! - `filled` tells the number of a flat body with terms in the place of its parts.
//!
//! An image is measured before it is made, so that one which passes a limit costs as much as its
//! term. What is shared between terms is looked at once: the measure and the number of an image are
//! kept for each part of a term.
#![tactic(auto)]

mod filling;
mod images;
mod laws;
mod lowering;
mod making;
mod measuring;
mod node;
mod notes;

pub use filling::filled;
pub use images::Images;
pub use laws::images_stay_known;
