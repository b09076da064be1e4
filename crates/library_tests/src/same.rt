//! What the tests compare.

use std::fmt::Debug;
use std::process::Abort;

/// Checks that a value is the wanted one, and says where if it isn't.
pub fn same<T: PartialEq + Debug>(rt: &impl Abort, place: &impl Debug, said: &T, wanted: &T) {
    assert_eq!(rt; said, wanted, "{place:?}");
}

/// Checks that bytes are the wanted ones.
pub fn same_bytes(rt: &impl Abort, said: &[u8], wanted: &[u8]) {
    assert_eq!(rt; said, wanted);
}
