//! Compares what the tests find. No function here states what it does, so that a test's proof is of
//! the test alone. Errors, decoders and other large values are let go here, where their types are
//! open: where a type is known, a proof goes through each part that is let go.
use std::alloc::Global;
use std::fmt::{Debug, Display};
use std::process::Abort;

/// Says what is missing where memory runs out, which ends the test.
pub const MEMORY: &str = "memory";

/// Says that a decoder isn't made, which ends the test.
pub const DECODER: &str = "no decoder";

/// Lets the value go.
pub fn let_go<T: Drop>(_value: T) {}

/// Checks that the condition holds.
pub fn assert_true(rt: &impl Abort, holds: bool) {
    assert!(rt; holds);
}

/// Checks that the condition holds of this text.
pub fn assert_of(rt: &impl Abort, holds: bool, text: &str) {
    assert!(rt; holds, "{text}");
}

/// Checks that the text is the one that is wanted.
pub fn assert_text(rt: &impl Abort, text: &str, want: &str) {
    assert_eq!(rt; text, want);
}

/// Checks that both are the same.
pub fn assert_same<T: PartialEq + Debug + Drop>(rt: &impl Abort, found: T, want: T) {
    assert_eq!(rt; found, want);
}

/// Checks that the call gives this text, and no error.
pub fn assert_given<E: Debug>(rt: &impl Abort, answer: Result<String, E>, want: &str) {
    let text = answer.expect(rt, "no text");
    assert_text(rt, text.as_str(), want);
}

/// Checks that there is an error, which prints this text.
pub fn assert_refused<T: Drop, E: Display + Drop>(
    rt: &impl Abort,
    alloc: Global,
    answer: Result<T, E>,
    want: &str,
) {
    match answer {
        Ok(_) => rt.panic("no error"),
        Err(error) => {
            let text = error.to_string(alloc).expect(rt, MEMORY);
            assert_text(rt, text.as_str(), want);
        }
    }
}

/// Returns whether there is an error.
pub fn is_refused<T: Drop, E: Drop>(answer: Result<T, E>) -> bool {
    answer.is_err()
}
