//! Runs of `sample`.

use crate::scenes::{ending, plays};

#[test]
fn samples_of_one_and_two(rt: HostRuntime) {
    let one = ending(
        "sample 1",
        0,
        b"sample 1: source 6 tokens, base 9 tokens, 5 nodes\n",
    );
    let two = ending(
        "sample 2",
        0,
        b"sample 2: source 11 tokens, base 17 tokens, 9 nodes\n",
    );
    assert!(rt; plays(rt.alloc(), &[], &[one, two]));
}

#[test]
fn the_greatest_sample(rt: HostRuntime) {
    let most = ending(
        "sample 300",
        0,
        b"sample 300: source 1501 tokens, base 2401 tokens, 1201 nodes\n",
    );
    let more = ending("sample 301", 2, b"soundx: words: word 2\n");
    assert!(rt; plays(rt.alloc(), &[], &[most, more]));
}
