//! Texts with two readings, in the order of their tree texts.

use crate::samples::Sample;
use crate::told::is_read_as;

#[test]
fn sums_to_both_sides(rt: HostRuntime) {
    let words = b"plus(last(1),plus(last(2),last(3))) | plus(plus(last(1),last(2)),last(3))";
    assert!(rt; is_read_as(rt.alloc(), Sample::Sums(50), b"1 + 2 + 3", words));
}

#[test]
fn sorts_that_share_their_brackets(rt: HostRuntime) {
    let words = b"[up(last(1))] | up([last(1)])";
    assert!(rt; is_read_as(rt.alloc(), Sample::Chain, b"( 1 )", words));
}
