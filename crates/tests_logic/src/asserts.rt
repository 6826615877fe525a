//! What the tests assert.

use std::fmt::Debug;
use std::process::Abort;

/// Ends the test with both values where what was found is not what is wanted. It is proved once,
/// and so cheaper than an `assert_eq!` in each test.
pub(crate) fn assert_same<T: PartialEq + Debug>(rt: &impl Abort, found: &T, wanted: &T) {
    assert!(rt; *found == *wanted, "found {found:?}, wanted {wanted:?}");
}

/// Ends the test where that does not hold. It is proved once too.
pub(crate) fn assert_holds(rt: &impl Abort, holds: bool) {
    assert!(rt; holds);
}
