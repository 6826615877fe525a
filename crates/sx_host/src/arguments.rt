//! The words of the command line.

use std::env;
use std::io::ErrorKind;
use sx_term::Text;

/// Why there are no words.
#[derive(Clone, Copy, PartialEq, Eq, Debug)]
pub enum ArgumentsError {
    /// Memory is lacking.
    Memory,
    /// A word is no UTF-8, so no text.
    NoText,
}

/// The words of the command line, without the program's name.
pub fn read_arguments(rt: &HostRuntime) -> Result<Vec<Text>, ArgumentsError> {
    let args = match env::args(rt) {
        Ok(args) => args,
        Err(e) => {
            return Err(match e.kind() {
                ErrorKind::OutOfMemory => ArgumentsError::Memory,
                _ => ArgumentsError::NoText,
            });
        }
    };
    let mut words = Vec::new(rt.alloc());
    for (number, word) in args.enumerate() {
        if number > 0 {
            let text = match Text::make(rt.alloc(), word.as_bytes()) {
                Ok(text) => text,
                Err(_) => return Err(ArgumentsError::Memory),
            };
            if words.push(text).is_err() {
                return Err(ArgumentsError::Memory);
            }
        }
    }
    Ok(words)
}
