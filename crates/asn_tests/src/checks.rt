//! Compares what the tests find. No function here states what it does, so that a test's proof is of
//! the test alone. Values and errors are let go here, where their types are open: where a type is
//! known, a proof goes through each part that is let go.
use std::alloc::Global;
use std::fmt::{Debug, Display};
use std::process::Abort;

/// Says what is missing where memory runs out, which ends the test.
pub const MEMORY: &str = "memory";

/// Says that a decoder isn't made, which ends the test.
pub const DECODER: &str = "no decoder";

/// Lets the value go.
pub fn let_go<T: Drop>(_value: T) {}

/// Checks that the condition holds.
pub fn assert_true(rt: &impl Abort, holds: bool) {
    assert!(rt; holds);
}

/// Checks that the condition holds of what has this name.
pub fn assert_of(rt: &impl Abort, holds: bool, name: &str) {
    assert!(rt; holds, "{name}");
}

/// Checks that the text is the one that is wanted.
pub fn assert_text(rt: &impl Abort, text: &str, want: &str) {
    assert_eq!(rt; text, want);
}

/// Checks that both are the same.
pub fn assert_same<T: PartialEq + Debug + Drop>(rt: &impl Abort, found: T, want: T) {
    assert_eq!(rt; found, want);
}

/// Checks that the call gives this text, and no error.
pub fn assert_given<E: Debug>(rt: &impl Abort, answer: Result<String, E>, want: &str) {
    let text = answer.expect(rt, "no text");
    assert_text(rt, text.as_str(), want);
}

/// Returns the printed text of the error of the call, which gives no value.
fn refusal<T: Drop, E: Display + Drop>(
    rt: &impl Abort,
    alloc: Global,
    answer: Result<T, E>,
) -> String {
    match answer {
        Ok(_) => rt.panic("no error"),
        Err(error) => error.to_string(alloc).expect(rt, MEMORY),
    }
}

/// Checks that there is an error, which prints this text.
pub fn assert_refused<T: Drop, E: Display + Drop>(
    rt: &impl Abort,
    alloc: Global,
    answer: Result<T, E>,
    want: &str,
) {
    let text = refusal(rt, alloc, answer);
    assert_text(rt, text.as_str(), want);
}

/// Checks that there is an error, whose text begins with this one.
pub fn assert_refused_with<T: Drop, E: Display + Drop>(
    rt: &impl Abort,
    alloc: Global,
    answer: Result<T, E>,
    start: &str,
) {
    let text = refusal(rt, alloc, answer);
    assert_of(rt, text.starts_with(start), text.as_str());
}
