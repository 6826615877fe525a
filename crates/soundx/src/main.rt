//! soundx: the command line.
#![tactic(auto)]

ghost use Rattle.std.specs.Prelude.{◌≡◌, ◌<◌};

use std::marker::Brand;
use std::process::ExitCode;
use std::sync::ledger::{Blank, Ledger};
use sx_audit::{Auditor, makers};
use sx_host::{ArgumentsError, Folder, StandardInput, StandardOutput, read_arguments};
use sx_outside::Sink;
use sx_term::{NoMemory, Steps, Text};
use sx_top::{Status, run};

/// Runs the words over the current folder, standard input and standard output.
fn run_with<L: Ledger>(
    rt: &HostRuntime,
    words: &[Text],
    auditors: Vec<Box<dyn Auditor>>,
    blank: Blank,
) -> Status
    requires name { blank.name ≡ L.name }
    requires parts { blank.parts ≡ L.parts }
    requires some { 0 < blank.parts }
{
    let mut steps = Steps::<L>::new(blank);
    let mut folder = Folder::new(rt);
    let mut input = StandardInput::new(rt);
    let mut output = StandardOutput::new(rt);
    run(
        rt.alloc(),
        words,
        &mut folder,
        &mut input,
        &mut output,
        auditors,
        &mut steps,
    )
}

/// Runs the words with one auditor of each kind, none of which a word has set.
fn run_words(rt: &HostRuntime, words: &[Text]) -> Result<Status, NoMemory> {
    let alloc = rt.alloc();
    let deny: Box<dyn Auditor> = Box::new(alloc, makers::deny(alloc)?)?;
    let depth: Box<dyn Auditor> = Box::new(alloc, makers::depth(alloc)?)?;
    let nodes: Box<dyn Auditor> = Box::new(alloc, makers::nodes(alloc)?)?;
    let tally: Box<dyn Auditor> = Box::new(alloc, makers::tally(alloc)?)?;
    let mut auditors = Vec::new(alloc);
    auditors.push(deny)?;
    auditors.push(depth)?;
    auditors.push(nodes)?;
    auditors.push(tally)?;
    Ok(run_with::<Brand>(rt, words, auditors, Blank::new(1)))
}

/// Says that the words are no texts.
fn refuse_words(rt: &HostRuntime) -> Status {
    let _ = StandardOutput::new(rt).write(b"soundx: words: word 1\n");
    Status::Words
}

fn main(rt: HostRuntime) -> ExitCode {
    let status = match read_arguments(&rt) {
        Ok(words) => run_words(&rt, &words).unwrap_or(Status::NoMemory),
        Err(ArgumentsError::Memory) => Status::NoMemory,
        Err(ArgumentsError::NoText) => refuse_words(&rt),
    };
    ExitCode::from(status.code())
}
