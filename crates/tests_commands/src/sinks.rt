//! Sinks in memory, whose writes fail where a test says so, or never.

use crate::asserts::assert_same;
use sx_outside::{CleanSink, MemSink, Sink, WriteAnswer};

/// What writing these bytes one after the other answers.
fn writes<K: Sink>(sink: &mut K) -> [WriteAnswer; 3] {
    let one = sink.write(b"one");
    let two = sink.write(b"two");
    let six = sink.write(b"six");
    [one, two, six]
}

#[test]
fn a_sink_fails(rt: HostRuntime) {
    let alloc = rt.alloc();
    let mut sink = MemSink::new(alloc);
    match Vec::from_slice(alloc, &[2]) {
        Ok(calls) => sink.fail(calls),
        Err(_) => {}
    }
    let answers = writes(&mut sink);
    let is_written = sink.written() == b"onesix".as_slice();
    drop(sink);
    let hold = [
        answers == [WriteAnswer::Done, WriteAnswer::Failed, WriteAnswer::Done],
        is_written,
    ];
    assert_same(&rt, &hold, &[true; 2]);
}

#[test]
fn a_clean_sink(rt: HostRuntime) {
    let mut sink = CleanSink::new(rt.alloc());
    let answers = writes(&mut sink);
    let is_written = sink.written() == b"onetwosix".as_slice();
    drop(sink);
    let hold = [
        answers == [WriteAnswer::Done, WriteAnswer::Done, WriteAnswer::Done],
        is_written,
    ];
    assert_same(&rt, &hold, &[true; 2]);
}
