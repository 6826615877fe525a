//! The build of a module and of all that it imports: the steps of `build NAME`.
//!
//! - `plan_build_module`: what is to be written, or why nothing is. The modules are read along
//!   their `import` lines, then their language; each is made after all that it imports, with their
//!   interfaces, and its derivation is shown to the auditors; and all files and lines are planned.
//! - `builds_keep_promise`, `built_have_headline`: the files that are left hold the texts of the
//!   units of all these modules, and those of each say of one another what is promised.
//! - `builds_agree`: by the name, the budgets, the auditors and the files there is one result and
//!   one number of tries; read faults, out of memory and the readings that a refusal shows aside.
//!   `build_walks_are_within`: no walk makes more tries than it may spend.
//! - `build_type_errors_are_final`: a type error comes only where the goal of one of the modules
//!   has no derivation at all, or a rule of one of its extensions is not sound.
//! - `denied_are_unbuilt`: no list that is written has a rule that an auditor denies.
#![tactic(auto)]

mod asked;
mod budgeted;
mod build_module;
mod building;
mod imports_made;
mod laws;
mod made;
mod making;
mod remembered;
mod whole_work;

pub use build_module::plan_build_module;
pub use laws::{
    build_type_errors_are_final, build_walks_are_within, builds_agree, builds_keep_promise,
    built_have_headline, denied_are_unbuilt,
};
