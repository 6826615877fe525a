//! The steps that make the unit of one module: what `compile NAME` and `build NAME` share.
//!
//! - `Given`: what a module is made from, which is its file, its language and the interfaces of its
//!   imports.
//! - `make_unit`: the three texts of the module, or the first refusal. `make_unit_of_several` reads
//!   the file of an extension that several modules use once for all of them.
//! - `unit_work`: its three files and its line, as what is left to do.
//! - Laws: by what is given and the files there is one unit or one refusal, and one number of
//!   tries; the three texts say of one another, by the language alone, what a unit promises, and
//!   are the desugaring of what the source says; a type error is final; walks are within budgets.
#![tactic(auto)]

mod compile_module;
mod extensions_reading;
mod given;
mod kept_extensions;
mod laws;
mod module_stops;
mod planned_unit;
mod unit_making;
mod use_marks;

pub use given::Given;
pub use laws::{
    type_errors_of_units_are_final, units_agree, units_have_headline, units_keep_promise,
    units_walks_are_within,
};
pub use planned_unit::unit_work;
pub use unit_making::{make_unit, make_unit_of_several};
