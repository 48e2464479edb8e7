//! Compares what the tests find. No function here states what it does, so that a test's proof is of
//! the test alone. Errors are let go here, where their types are open: where a type is known, a
//! proof goes through each part that is let go.
use std::alloc::Global;
use std::fmt::Display;
use std::process::Abort;

/// Says what is missing where memory runs out, which ends the test.
pub const MEMORY: &str = "memory";

/// Lets the value go.
pub fn let_go<T: Drop>(_value: T) {}

/// Checks that the condition holds.
pub fn assert_true(rt: &impl Abort, holds: bool) {
    assert!(rt; holds);
}

/// Checks that the text is the one that is wanted.
fn assert_text(rt: &impl Abort, text: &str, want: &str) {
    assert_eq!(rt; text, want);
}

/// Returns the text `m`, which stands for any text that an error may hold.
pub fn message(rt: &impl Abort, alloc: Global) -> String {
    String::from_str(alloc, "m").expect(rt, MEMORY)
}

/// Checks that the value prints the text that is wanted.
pub fn assert_printed<T: Display + Drop>(rt: &impl Abort, alloc: Global, value: T, want: &str) {
    let text = value.to_string(alloc).expect(rt, MEMORY);
    assert_text(rt, text.as_str(), want);
}

/// Checks that there is no error.
pub fn assert_accepted<E: Drop>(rt: &impl Abort, answer: Result<(), E>) {
    assert!(rt; answer.is_ok());
}

/// Checks that there is an error, which prints the text that is wanted.
pub fn assert_refused<E: Display + Drop>(
    rt: &impl Abort,
    alloc: Global,
    answer: Result<(), E>,
    want: &str,
) {
    match answer {
        Ok(()) => rt.panic("no error"),
        Err(error) => assert_printed(rt, alloc, error, want),
    }
}
