//! Auditors that words name.

use crate::asserts::assert_same;
use crate::auditors::boxed;
use std::alloc::Global;
use sx_audit::{Auditor, makers};
use sx_auditing::{name_auditors, put_texts};
use sx_steps::{StepError, Stop as Stopped};
use sx_term::{NoMemory, Text};
use sx_words::{Audit, Defect, FileDefect};
use tests_given::Stop;

/// The place of the word that is refused; the greatest number where it is another stop.
fn place_in(stop: &Stopped) -> u64 {
    match &stop.refusal.defect {
        Defect::File(FileDefect::Word(place)) => *place,
        _ => u64::MAX,
    }
}

/// Whether these are the texts of the auditors.
fn say(alloc: Global, auditors: &[Box<dyn Auditor>], wanted: &[u8]) -> bool {
    let mut texts = Vec::new(alloc);
    let is = match put_texts(alloc, auditors, &mut texts) {
        Ok(()) => texts.as_slice() == wanted,
        Err(_) => false,
    };
    drop(texts);
    is
}

/// The place of the word that is refused; 0 where none is and the texts are these, and the greatest
/// number where they are others or memory is lacking.
fn told(alloc: Global, named: &Result<Vec<Box<dyn Auditor>>, StepError>, wanted: &[u8]) -> u64 {
    match named {
        Ok(kept) => {
            if say(alloc, kept, wanted) {
                0
            } else {
                u64::MAX
            }
        }
        Err(StepError::Stopped(stop)) => place_in(stop),
        Err(StepError::Memory) => u64::MAX,
    }
}

/// What is told where these options name auditors of the row.
fn named_in(alloc: Global, row: Vec<Box<dyn Auditor>>, audits: &[Audit], wanted: &[u8]) -> u64 {
    let kept = name_auditors(alloc, row, audits);
    let told = told(alloc, &kept, wanted);
    drop(kept);
    told
}

/// What is told where these options name auditors among four, of which two have one name.
fn named(alloc: Global, audits: &[Audit], wanted: &[u8]) -> u64 {
    match (
        boxed(alloc, Stop::new(alloc)),
        boxed(alloc, makers::deny(alloc)),
        boxed(alloc, Stop::new(alloc)),
        boxed(alloc, makers::tally(alloc)),
    ) {
        (Some(stop), Some(deny), Some(other), Some(tally)) => {
            let four: [Box<dyn Auditor>; 4] = [stop, deny, other, tally];
            match Vec::from_array(alloc, four) {
                Ok(row) => named_in(alloc, row, audits, wanted),
                Err(_) => u64::MAX,
            }
        }
        (stop, deny, other, tally) => {
            drop(tally);
            drop(other);
            drop(deny);
            drop(stop);
            u64::MAX
        }
    }
}

/// Adds an option that names an auditor, at this place among the words.
fn put_audit(
    alloc: Global,
    named: (&str, &str),
    word: u32,
    audits: &mut Vec<Audit>,
) -> Result<(), NoMemory> {
    let kind = Text::of_str(alloc, named.0)?;
    match Text::of_str(alloc, named.1) {
        Ok(setting) => {
            audits.push(Audit {
                kind,
                setting,
                word,
            })?;
            Ok(())
        }
        Err(e) => {
            drop(kind);
            Err(e)
        }
    }
}

/// What is told of two options, the words 2 and 3.
fn two(alloc: Global, first: (&str, &str), second: (&str, &str), wanted: &[u8]) -> u64 {
    let mut audits = Vec::new(alloc);
    let are_put = put_audit(alloc, first, 2, &mut audits).is_ok()
        && put_audit(alloc, second, 3, &mut audits).is_ok();
    let told = named(alloc, &audits, wanted);
    drop(audits);
    if are_put { told } else { u64::MAX }
}

#[test]
fn words_name_auditors(rt: HostRuntime) {
    let alloc = rt.alloc();
    let tally = ("tally", "T-App,T-Lam");
    let found = [
        two(
            alloc,
            tally,
            ("stop", "x"),
            b"stop\ntally T-App 0 T-Lam 0\n",
        ),
        two(
            alloc,
            ("deny", "L-Here"),
            tally,
            b"deny L-Here\ntally T-App 0 T-Lam 0\n",
        ),
        two(alloc, ("bogus", "1"), ("deny", ""), b""),
        two(alloc, tally, ("deny", ""), b""),
        two(alloc, tally, ("nodes", "1"), b""),
    ];
    assert_same(&rt, &found, &[0, 0, 2, 3, 3]);
}
