//! What is left to do where no step stopped.

use sx_term::Text;

/// A file to write.
#[derive(Drop)]
pub struct Output {
    pub name: Text,
    pub bytes: Vec<u8>,
}

/// The files to write in order, and the lines for the sink.
#[derive(Drop)]
pub struct Work {
    pub files: Vec<Output>,
    pub lines: Vec<u8>,
}
