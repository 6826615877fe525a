//! The current folder as a shelf. It tells nothing of its content.

ghost use Rattle.std.specs.Prelude.{◌≤◌, None, vec_len};

use std::fs::File;
use std::io::{ErrorKind, Read, Write};
use sx_outside::{ReadAnswer, Shelf, WriteAnswer};
use sx_term::Text;

/// The current folder, with how many reads and writes have failed.
#[derive(Drop)]
pub struct Folder<'a> {
    rt: &'a HostRuntime,
    reads_failed: u64,
    writes_failed: u64,
}

impl<'a> Folder<'a> {
    /// The current folder, without faults.
    pub fn new(rt: &'a HostRuntime) -> Folder<'a> {
        Folder {
            rt,
            reads_failed: 0,
            writes_failed: 0,
        }
    }
}

/// Reads at most `limit` bytes of the file.
fn read_all(file: &mut File, limit: u32, into: &mut Vec<u8>) -> ReadAnswer
    requires { vec_len into.old ≤ limit }
    ensures { vec_len into.new ≤ limit }
{
    let mut buffer = [0u8; 4096];
    for _ in 0..u64::MAX {
        match file.read(&mut buffer) {
            Err(_) => return ReadAnswer::Failed,
            Ok(0) => return ReadAnswer::Found,
            Ok(count) => {
                if count > limit as usize || into.len() > limit as usize - count {
                    return ReadAnswer::TooLong;
                }
                if into.extend_from_slice(&buffer[..count]).is_err() {
                    return ReadAnswer::NoMemory;
                }
            }
        }
    }
    ReadAnswer::Failed
}

fn write_all(rt: &HostRuntime, name: &str, bytes: &[u8]) -> bool {
    match File::create(rt, name) {
        Err(_) => false,
        Ok(mut file) => file.write_all(bytes).is_ok(),
    }
}

impl<'a> Shelf for Folder<'a> {
    ghost content = { λ _. None };

    ghost read_faults = { λ folder. folder.reads_failed };

    ghost write_faults = { λ folder. folder.writes_failed };

    fn read(&mut self, name: &Text, limit: u32, into: &mut Vec<u8>) -> ReadAnswer {
        into.clear();
        let answer = match File::open(self.rt, name.as_str()) {
            Err(e) => match e.kind() {
                ErrorKind::NotFound => ReadAnswer::Absent,
                _ => ReadAnswer::Failed,
            },
            Ok(mut file) => read_all(&mut file, limit, into),
        };
        match answer {
            ReadAnswer::Found => {}
            ReadAnswer::Failed => {
                into.clear();
                self.reads_failed = self.reads_failed.saturating_add(1);
            }
            ReadAnswer::Absent | ReadAnswer::TooLong | ReadAnswer::NoMemory => into.clear(),
        }
        answer
    }

    fn write(&mut self, name: &Text, bytes: &[u8]) -> WriteAnswer {
        if write_all(self.rt, name.as_str(), bytes) {
            WriteAnswer::Done
        } else {
            self.writes_failed = self.writes_failed.saturating_add(1);
            WriteAnswer::Failed
        }
    }
}
