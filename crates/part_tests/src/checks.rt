//! What tests expect of two values.
use std::fmt::Debug;
use std::process::Abort;

/// A value that was found is the expected one.
pub(crate) fn expect_same<T: Copy + Debug + PartialEq>(rt: &impl Abort, found: T, expected: T) {
    assert_eq!(rt; found, expected);
}
