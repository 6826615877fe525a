//! The outside: a shelf of files, a sink and a source of bytes, with their memory kinds.
#![tactic(auto)]

mod answer;
mod calls;
mod clean;
mod memory_shelf;
mod memory_sink;
mod memory_source;
mod rest;
mod shelf;
mod sink;
mod source;
mod table;

pub use answer::{ReadAnswer, TakeAnswer, WriteAnswer};
pub use clean::{CleanShelf, CleanSink, CleanSource};
pub use memory_shelf::MemShelf;
pub use memory_sink::MemSink;
pub use memory_source::MemSource;
pub use shelf::Shelf;
pub use sink::Sink;
pub use source::Source;
