//! Assertions that tests call: `assert_eq!` at a struct or an enum is long to prove, and is proved
//! once here. A failure is reported at the line of the call.

use std::fmt::Debug;
use std::process::Abort;

/// Fails the test unless what it got is what it wanted.
pub fn same<T: PartialEq + Debug + Drop>(rt: &impl Abort, got: T, wanted: T) {
    assert_eq!(rt; got, wanted);
}

/// Fails the test unless what it got for this row of a table is what it wanted.
pub fn same_at<T: PartialEq + Debug + Drop>(rt: &impl Abort, got: T, wanted: T, row: &impl Debug) {
    assert_eq!(rt; got, wanted, "{row:?}");
}
