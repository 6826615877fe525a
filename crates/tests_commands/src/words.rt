//! The commands that words spell.

use crate::asserts::assert_same;
use std::alloc::Global;
use sx_term::Text;
use sx_words::{Audit, Command, WordsError, read_words};

/// Appends the words of a line, which one blank divides; whether memory was there for them.
fn put_words(alloc: Global, line: &[u8], words: &mut Vec<Text>) -> bool {
    for word in line.split(|b| *b == b' ') {
        match Text::make(alloc, word) {
            Ok(text) => {
                if words.push(text).is_err() {
                    return false;
                }
            }
            Err(_) => return false,
        }
    }
    true
}

/// The place of the first word that does not fit, or 0; the greatest number without memory.
fn place_of(read: &Result<Command, WordsError>) -> u64 {
    match read {
        Ok(_) => 0,
        Err(WordsError::Words(place)) => *place,
        Err(WordsError::Memory) => u64::MAX,
    }
}

/// The place of the first word of the line that does not fit, or 0.
fn misfit(alloc: Global, line: &[u8]) -> u64 {
    let mut words = Vec::new(alloc);
    let mut place = u64::MAX;
    if put_words(alloc, line, &mut words) {
        let read = read_words(alloc, words.as_slice());
        place = place_of(&read);
        drop(read);
    }
    drop(words);
    place
}

#[test]
fn no_words(rt: HostRuntime) {
    let read = read_words(rt.alloc(), &[]);
    let place = place_of(&read);
    drop(read);
    assert_same(&rt, &place, &1);
}

#[test]
fn words_of_commands(rt: HostRuntime) {
    let alloc = rt.alloc();
    let places = [
        misfit(alloc, b"build"),
        misfit(alloc, b"Build Main"),
        misfit(alloc, b"build Main"),
        misfit(alloc, b"build Main --core"),
        misfit(alloc, b"check --tries=1 --nodes=1 Let"),
        misfit(alloc, b"check --core Let"),
        misfit(alloc, b"check --audit=deny:R Let"),
        misfit(alloc, b"verify --core One"),
        misfit(alloc, b"verify 1One"),
        misfit(alloc, b"verify One-Two"),
    ];
    assert_same(&rt, &places, &[2, 1, 0, 3, 0, 2, 2, 0, 2, 2]);
}

#[test]
fn numbers_of_tries(rt: HostRuntime) {
    let alloc = rt.alloc();
    let places = [
        misfit(alloc, b"build --tries=0 Main"),
        misfit(alloc, b"build --tries=01 Main"),
        misfit(alloc, b"build --tries=1000001 Main"),
        misfit(alloc, b"build --tries=1000000 --core Main"),
        misfit(alloc, b"build --tries=1 --tries=2 Main"),
    ];
    assert_same(&rt, &places, &[2, 2, 2, 0, 3]);
}

#[test]
fn options_together(rt: HostRuntime) {
    let alloc = rt.alloc();
    let places = [
        misfit(alloc, b"build --core --nodes=1 Main"),
        misfit(alloc, b"build --audit=deny:R --core Main"),
        misfit(alloc, b"build --audit=deny Main"),
        misfit(alloc, b"build --audit=deny:R --audit=deny:S Main"),
        misfit(alloc, b"compile --core Main"),
    ];
    assert_same(&rt, &places, &[3, 3, 2, 3, 2]);
}

#[test]
fn words_of_a_sample(rt: HostRuntime) {
    let alloc = rt.alloc();
    let places = [
        misfit(alloc, b"sample 300"),
        misfit(alloc, b"sample 301"),
        misfit(alloc, b"sample 1 2"),
        misfit(alloc, b"sample"),
    ];
    assert_same(&rt, &places, &[0, 2, 3, 2]);
}

#[test]
fn options_of_commands(rt: HostRuntime) {
    let alloc = rt.alloc();
    let places = [
        misfit(alloc, b"build --tries=5 Main"),
        misfit(alloc, b"build --core --tries=5 One"),
        misfit(alloc, b"verify Main"),
        misfit(alloc, b"verify --tries=5 Main"),
        misfit(alloc, b"build --nodes=5 Main"),
        misfit(alloc, b"build --core --nodes=5 One"),
        misfit(alloc, b"build --audit=deny:R Main"),
        misfit(alloc, b"build --core --core One"),
        misfit(alloc, b"build --core One Two"),
        misfit(alloc, b"build Main --tries=5"),
        misfit(alloc, b"compile --audit=deny:R --tries=5 Main"),
        misfit(alloc, b"verify --core --audit=deny:R One"),
    ];
    assert_same(&rt, &places, &[0, 0, 0, 2, 0, 3, 0, 3, 4, 3, 0, 3]);
}

/// Whether the auditor is that of the test.
fn is_bogus(audit: &Audit) -> bool {
    audit.kind.bytes() == b"bogus".as_slice()
        && audit.setting.bytes() == b"1:2".as_slice()
        && audit.word == 2
}

/// Whether the command is that of the test.
fn is_command(command: &Command) -> bool {
    match command {
        Command::Build {
            core,
            name,
            tries,
            nodes,
            audits,
        } => {
            let is_named = name.bytes() == b"Main".as_slice();
            match audits.as_slice() {
                [audit] => {
                    !*core && is_named && *tries == 1_000_000 && *nodes == 7 && is_bogus(audit)
                }
                _ => false,
            }
        }
        _ => false,
    }
}

/// Whether the words are read as the command of the test.
fn is_read(alloc: Global, words: &[Text]) -> bool {
    let read = read_words(alloc, words);
    let is = match &read {
        Ok(command) => is_command(command),
        Err(_) => false,
    };
    drop(read);
    is
}

#[test]
fn a_command(rt: HostRuntime) {
    let alloc = rt.alloc();
    let mut words = Vec::new(alloc);
    let line = b"build --audit=bogus:1:2 --nodes=7 Main";
    let is = put_words(alloc, line, &mut words) && is_read(alloc, words.as_slice());
    drop(words);
    assert!(rt; is);
}
