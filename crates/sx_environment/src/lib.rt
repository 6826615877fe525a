//! The environment of a module, by the interfaces of its imports.
//!
//! - An environment begins with the language's empty one; each import adds its name and the term
//!   that is seen of it, in the order of the header.
//! - An import that uses just the same extensions is seen by its stated signature, as its author
//!   wrote it, read by the grammar of the dialect; each other one by its signature, read by the
//!   grammar of the language. The signature is the plain image of a stated one that is seen.
//! - Laws: imports have one environment or one refusal; the environment by the language alone is
//!   the plain image of the one that is seen; the lines that refusals tell are those of
//!   the interface's file.
#![tactic(auto)]

mod building;
mod image_comparing;
mod import_error;
mod laws;
mod numbered;
mod row;
mod row_reading;
mod seeing;
mod surroundings;

pub use building::environment;
pub use import_error::ImportError;
pub use laws::{base_environment_is_image, one_environment, rows_have_lines};
pub use surroundings::Surroundings;
