//! The sample: a large valid module, with the language and the extension that it uses.
#![tactic(auto)]

mod laws;
mod sampling;
mod shelf;
mod summary;
mod texts;

pub use laws::tokens_are_counted;
pub use sampling::sample;
pub use shelf::sample_shelf;
pub use summary::{Summary, summary_line};
pub use texts::{LAM_LANG, LET_EXT};
