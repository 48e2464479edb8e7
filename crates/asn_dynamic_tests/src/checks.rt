//! Compares what the tests find. No function here states what it does, so that a test's proof is of
//! the test alone. Values and errors are let go here, where their types are open: where a type is
//! known, a proof goes through each part that is let go.
use std::alloc::Global;
use std::fmt::{Debug, Display};
use std::process::Abort;

/// Says what is missing where memory runs out, which ends the test.
pub const MEMORY: &str = "memory";

/// Says that a shape can't be read, which ends the test.
pub const UNREADABLE: &str = "a shape that can't be read";

/// Lets the value go.
pub fn let_go<T: Drop>(_value: T) {}

/// Checks that the condition holds.
pub fn assert_true(rt: &impl Abort, holds: bool) {
    assert!(rt; holds);
}

/// Checks that the text is the one that is wanted.
fn assert_text(rt: &impl Abort, text: &str, want: &str) {
    assert_eq!(rt; text, want);
}

/// Checks that the call gives this text, and no error.
pub fn assert_given<E: Debug>(rt: &impl Abort, answer: Result<String, E>, want: &str) {
    let text = answer.expect(rt, "no text");
    assert_text(rt, text.as_str(), want);
}

/// Checks that the error prints this text.
pub fn assert_printed<E: Display + Drop>(rt: &impl Abort, alloc: Global, error: E, want: &str) {
    let text = error.to_string(alloc).expect(rt, MEMORY);
    assert_text(rt, text.as_str(), want);
}

/// Returns the error of the call, which gives no value.
pub fn refusal<T: Drop, E>(rt: &impl Abort, answer: Result<T, E>) -> E {
    match answer {
        Ok(_) => rt.panic("a value"),
        Err(error) => error,
    }
}
