//! Units: what is written of a module that is typed in a dialect and lowered.
//!
//! - `compile` makes the unit of a module: its body is read and typed, the derivation is lowered,
//!   and the texts are written; or it tells the refusal that is due.
//! - A unit is a body that is read in one way by the grammar of a dialect, the first derivation of
//!   its goal, what that is lowered to by the language's own rules, and three texts: the base
//!   program, the interface with the signature and the stated signature, and the list of the
//!   lowered derivation.
//! - Each printed text is within the limits and has one reading, by the language's grammar, or, for
//!   the stated signature, by the dialect's. A name in it that is a literal there is refused.
//! - Laws: a module has one unit or one refusal; what is made is the unit of the first derivation;
//!   a type error comes only where there is none.
#![tactic(auto)]

mod base_writing;
mod captured;
mod compiled;
mod compiling;
mod counting;
mod errors;
mod judgement_terms;
mod known_reading;
mod laws;
mod lowered_writing;
mod lowering;
mod module_source;
mod module_writing;
mod part_check;
mod parts;
mod print_check;
mod printed_terms;
mod showing;
mod signature_writing;
mod texts;
mod typed_lowering;

pub use compiled::Compiled;
pub use compiling::compile;
pub use laws::{module_type_errors_are_final, one_unit, units_are_made};
pub use module_source::ModuleSource;
pub use showing::show;
pub use sx_typing::ModuleError;
