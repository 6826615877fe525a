//! Numbers that are found by their hashes.

use crate::asserts::assert_same;
use std::alloc::Global;
use sx_slots::{Slots, folded, mix};

/// So many numbers, whose hashes go round through the numbers below 50.
fn going_round(alloc: Global, count: u32) -> Option<Slots> {
    let mut slots = Slots::new(alloc);
    for number in 0..count {
        if slots.push(number % 50).is_err() {
            drop(slots);
            return None;
        }
    }
    Some(slots)
}

/// The last number with the hash, and the one before it.
fn last_two(slots: &Slots, hash: u32) -> [Option<usize>; 2] {
    let last = slots.last(hash);
    let before = match last {
        None => None,
        Some(number) => slots.before(number),
    };
    [last, before]
}

/// The last two numbers with the hash among so many that go round, of which the first are left.
fn found(alloc: Global, count: u32, left: usize, hash: u32) -> [Option<usize>; 2] {
    let Some(mut slots) = going_round(alloc, count) else {
        return [Some(0), Some(0)];
    };
    slots.truncate(left);
    let found = last_two(&slots, hash);
    drop(slots);
    found
}

#[test]
fn numbers_are_found(rt: HostRuntime) {
    let alloc = rt.alloc();
    let found = [
        found(alloc, 120, 120, 7),
        found(alloc, 120, 120, 49),
        found(alloc, 120, 120, 50),
        found(alloc, 120, 107, 7),
        found(alloc, 120, 8, 7),
        found(alloc, 120, 0, 7),
        found(alloc, 0, 5, 0),
    ];
    let wanted = &[
        [Some(107), Some(57)],
        [Some(99), Some(49)],
        [None, None],
        [Some(57), Some(7)],
        [Some(7), None],
        [None, None],
        [None, None],
    ];
    assert_same(&rt, &found, wanted);
}

#[test]
fn hashes_of_numbers(rt: HostRuntime) {
    assert_same(&rt, &mix(1, 5), &11_400_714_819_323_198_490);
    assert_same(&rt, &[folded(mix(1, 5)), folded(0)], &[4_133_064_130, 0]);
}
