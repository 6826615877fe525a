//! The order of modules and of extensions: each after all that it imports.
#![tactic(auto)]

mod error;
mod laws;
mod order;
mod state;
mod walk;

pub use error::{OrderError, WalkError};
pub use laws::{
    cycle_is_there, missing_is_reached, missing_stops, one_end, order_is_there, order_is_whole,
    some_end, too_many_are_there, too_many_stops, visit_goes_on,
};
pub use order::Order;
pub use walk::{Next, Visit, Walk};
