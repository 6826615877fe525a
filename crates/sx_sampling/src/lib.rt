//! The command `sample N`: the sample module is made in memory, and its unit over the files that it
//! needs.
//!
//! - `plan_sample`: the line that tells how big it is, as what is left to do; or the refusal of the
//!   first step that refuses.
//! - `samples_agree`: by the number of names there is one result and one number of tries; read
//!   faults, out of memory and the readings that a refusal shows aside. `sample_walks_are_within`:
//!   no walk makes more tries than it may spend.
//! - `samples_keep_promise`, `sampled_have_headline`: no file is changed, and the line tells how
//!   big a unit of the sample is, whose texts say of one another, by the language alone, what is
//!   promised, and are the desugaring of what the sample says by its extensions.
//! - `sample_type_errors_are_final`: a type error comes only where the body's goal has no
//!   derivation at all, or a rule of an extension is not sound.
#![tactic(auto)]

mod laws;
mod sample_steps;
mod sample_unit;

pub use laws::{
    sample_type_errors_are_final, sample_walks_are_within, sampled_have_headline, samples_agree,
    samples_keep_promise,
};
pub use sample_steps::plan_sample;
