//! Compares what the tests find. No function here states what it does, so that a test's proof is of
//! the test alone.
use std::alloc::Global;
use std::fmt::{Debug, Display};
use std::process::Abort;

/// Says what is missing where memory runs out, which ends the test.
pub const MEMORY: &str = "memory";

/// Checks that the condition holds.
pub fn assert_true(rt: &impl Abort, holds: bool) {
    assert!(rt; holds);
}

/// Checks that the condition holds of a row that prints this.
pub fn assert_of<T: Debug + Drop>(rt: &impl Abort, holds: bool, row: T) {
    assert!(rt; holds, "{row:?}");
}

/// Checks that both are the same.
pub fn assert_same<T: PartialEq + Debug + Drop>(rt: &impl Abort, found: T, want: T) {
    assert_eq!(rt; found, want);
}

/// Checks that the text is the one that is wanted.
pub fn assert_text(rt: &impl Abort, text: &str, want: &str) {
    assert_eq!(rt; text, want);
}

/// Checks that the octets are those that are wanted.
pub fn assert_octets(rt: &impl Abort, octets: &[u8], want: &[u8]) {
    assert_eq!(rt; octets, want);
}

/// Checks that the value prints the text that is wanted.
pub fn assert_printed<T: Display + Drop>(rt: &impl Abort, alloc: Global, value: T, want: &str) {
    let text = value.to_string(alloc).expect(rt, MEMORY);
    assert_text(rt, text.as_str(), want);
}

/// Returns a copy of the octets.
pub fn octets(rt: &impl Abort, alloc: Global, octets: &[u8]) -> Vec<u8> {
    Vec::from_slice(alloc, octets).expect(rt, MEMORY)
}

/// Returns an owned text.
pub fn owned(rt: &impl Abort, alloc: Global, text: &str) -> String {
    String::from_str(alloc, text).expect(rt, MEMORY)
}

/// Returns whether both are equal, and lets the other one go.
pub fn is_equal<T: PartialEq + Drop>(one: &T, other: T) -> bool {
    *one == other
}
