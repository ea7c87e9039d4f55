//! The comparison of what is told with what is wanted. It is proved once, where each test's own would be proved in each.

use std::process::Abort;

/// Checks that what was found is this text.
pub fn is_text(rt: &impl Abort, found: &[u8], wanted: &str) {
    assert_eq!(rt; str::from_utf8(found).unwrap_or("no text"), wanted);
}
