//! Standard input and standard output as a source and a sink: what comes in goes out.
#![tactic(auto)]

use std::process::ExitCode;
use sx_host::{StandardInput, StandardOutput};
use sx_outside::{Sink, Source, TakeAnswer, WriteAnswer};

/// Whether the source is at its end, and leaves the bytes that it is given as they were.
fn is_at_end(input: &mut StandardInput<'_>) -> bool {
    let mut bytes = [7u8; 3];
    let answer = input.take(&mut bytes);
    answer == TakeAnswer::End && bytes == [7, 7, 7]
}

/// Moves all that comes in to where it goes out, five bytes at most at once. It tells whether the
/// source came to its end.
fn move_all(input: &mut StandardInput<'_>, output: &mut StandardOutput<'_>) -> bool {
    let mut bytes = [0u8; 5];
    for _ in 0..u64::MAX {
        match input.take(&mut bytes) {
            TakeAnswer::Took(count) => {
                if output.write(&bytes[..count]) != WriteAnswer::Done {
                    return false;
                }
            }
            TakeAnswer::End => return is_at_end(input),
            TakeAnswer::Failed => return false,
        }
    }
    false
}

fn main(rt: HostRuntime) -> ExitCode {
    let mut input = StandardInput::new(&rt);
    let mut output = StandardOutput::new(&rt);
    let is_moved = move_all(&mut input, &mut output);
    ExitCode::from(if is_moved { 0 } else { 1 })
}
