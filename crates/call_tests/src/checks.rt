//! The check of most tests. It is proved once, where a comparison in each of them would be proved in each.

use std::fmt::Debug;
use std::process::Abort;

/// Checks that what was found in a case is what is wanted.
pub fn equal<C: Debug, T: PartialEq + Debug>(rt: &impl Abort, case: &C, found: &T, wanted: &T) {
    assert_eq!(rt; *found, *wanted, "{case:?}");
}
