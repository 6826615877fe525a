//! The steps of `compile NAME`: one module against the interfaces of its imports.
//!
//! - `plan_compile`: what is to be written, or why nothing is. The module's file is read, then that
//!   of its language, then the interfaces of its imports; its unit is made, and shown to the
//!   auditors; and its three files, the line and the texts of the auditors are planned.
//! - `compiles_agree`: by the name, the auditors and the files there is one result and one number
//!   of tries; read faults, out of memory and the readings that a refusal shows aside.
//!   `compile_walks_are_within`: no walk makes more tries than it may spend.
//! - `compiles_keep_promise`, `compiled_has_headline`: the three files that are left say of one
//!   another, by the language alone, what is promised, and are the desugaring of what the source
//!   says by its extensions, in the environment of its imports.
//! - `compile_type_errors_are_final`: a type error comes only where the body's goal has no
//!   derivation at all, or a rule of an extension is not sound.
//! - `denied_are_uncompiled`: the list that is written has no rule that an auditor denies.
#![tactic(auto)]

mod asked;
mod audited_work;
mod compile_module;
mod import_names;
mod laws;

pub use compile_module::plan_compile;
pub use laws::{
    compile_type_errors_are_final, compile_walks_are_within, compiled_has_headline, compiles_agree,
    compiles_keep_promise, denied_are_uncompiled,
};
