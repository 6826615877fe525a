//! The modules of a closure: those that are reached from one by `import` lines.
//!
//! - `read_named`: the header of one module, from its file `NAME.mod`.
//! - `read_modules`: the modules that are reached from one, each once and after those that it
//!   imports; or the first refusal that the walk comes to.
//! - `modules_agree`: by the name and the files there is one result, but for read faults and out of
//!   memory. `modules_are_closure`: what was read is a closure.
#![tactic(auto)]

mod closure_reading;
mod laws;
mod module_kind;
mod named_module;

pub use closure_reading::read_modules;
pub use laws::{modules_agree, modules_are_closure};
pub use named_module::read_named;
