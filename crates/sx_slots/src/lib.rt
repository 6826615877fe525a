//! Numbers that are found by their hashes.
//!
//! - `Slots` has the numbers 0, 1, 2 and so on, each with a hash, and finds those with a hash.
//! - `mix` makes one number of many, one after the other, and `folded` a hash of it.
#![tactic(auto)]

mod mixing;
mod slots;

pub use mixing::{folded, mix};
pub use slots::Slots;
