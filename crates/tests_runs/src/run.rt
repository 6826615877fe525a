//! Runs over files in memory.

ghost use Rattle.std.specs.Prelude.{◌≡◌, ◌<◌};

use std::alloc::Global;
use std::marker::Brand;
use std::sync::ledger::{Blank, Ledger};
use sx_audit::{Auditor, makers};
use sx_outside::{CleanSource, MemShelf, MemSink};
use sx_term::{Steps, Text};
use sx_top::{Status, run};

/// Appends the words of the line, and answers whether memory was there for them.
fn put_words(alloc: Global, line: &str, words: &mut Vec<Text>) -> bool {
    for word in line.split_whitespace() {
        match Text::make(alloc, word.as_bytes()) {
            Ok(text) => {
                if words.push(text).is_err() {
                    return false;
                }
            }
            Err(_) => return false,
        }
    }
    true
}

/// The exit code of the run of these words.
fn run_with<L: Ledger>(
    alloc: Global,
    words: &[Text],
    shelf: &mut MemShelf,
    out: &mut MemSink,
    auditors: Vec<Box<dyn Auditor>>,
    blank: Blank,
) -> Status
    requires name { blank.name ≡ L.name }
    requires parts { blank.parts ≡ L.parts }
    requires some { 0 < blank.parts }
{
    let mut steps = Steps::<L>::new(blank);
    let mut input = CleanSource::new(Vec::new(alloc));
    run(alloc, words, shelf, &mut input, out, auditors, &mut steps)
}

/// The exit code of the run of the command line with these auditors, unless memory is lacking for
/// its words.
pub fn code_with(
    alloc: Global,
    line: &str,
    auditors: Vec<Box<dyn Auditor>>,
    shelf: &mut MemShelf,
    out: &mut MemSink,
) -> Option<u8> {
    let mut words = Vec::new(alloc);
    let code = if put_words(alloc, line, &mut words) {
        Some(run_with::<Brand>(alloc, &words, shelf, out, auditors, Blank::new(1)).code())
    } else {
        drop(auditors);
        None
    };
    drop(words);
    code
}

/// The exit code of the run of the command line with one auditor of each kind.
pub fn code_of(alloc: Global, line: &str, shelf: &mut MemShelf, out: &mut MemSink) -> Option<u8> {
    let deny: Box<dyn Auditor> = Box::new(alloc, makers::deny(alloc).ok()?).ok()?;
    let depth: Box<dyn Auditor> = Box::new(alloc, makers::depth(alloc).ok()?).ok()?;
    let nodes: Box<dyn Auditor> = Box::new(alloc, makers::nodes(alloc).ok()?).ok()?;
    let tally: Box<dyn Auditor> = Box::new(alloc, makers::tally(alloc).ok()?).ok()?;
    let mut auditors = Vec::new(alloc);
    auditors.push(deny).ok()?;
    auditors.push(depth).ok()?;
    auditors.push(nodes).ok()?;
    auditors.push(tally).ok()?;
    code_with(alloc, line, auditors, shelf, out)
}

/// Whether the run of the command line ends with this exit code, and the sink has got this.
pub fn ends(
    alloc: Global,
    line: &str,
    shelf: &mut MemShelf,
    out: &mut MemSink,
    code: u8,
    told: &[u8],
) -> bool {
    code_of(alloc, line, shelf, out) == Some(code) && out.written() == told
}
