//! Texts read and written by shapes, and calls that are refused.
use crate::checks::{UNREADABLE, assert_given, assert_true, let_go, refusal};
use asn_core::{Codec, WholeNumber};
use asn_dynamic::{DynError, DynKind, DynValue, convert, fits, read};
use asn_fault::DecodeErrorKind;
use asn_model::{Shape, is_readable};
use asn_samples::shape_of;
use std::alloc::Global;
use std::process::Abort;

/// Lists conversions: the type, the notations, the text, and what is written.
const ROWS: [(&str, Codec, Codec, &str, &str); 4] = [
    (
        "SetOf<u8>",
        Codec::Jer,
        Codec::Jer,
        "[2,10,1,2]",
        "[1,10,2,2]",
    ),
    (
        "SetOf<u8>",
        Codec::Avn,
        Codec::Jer,
        "{ 2, 10, 1, 2 }",
        "[1,10,2,2]",
    ),
    (
        "OldReport",
        Codec::Jer,
        Codec::Jer,
        r#"{"id":1,"owner":"o","parts":[{"text":"b"},{"code":7}]}"#,
        r#"{"id":1,"parts":[{"code":7},{"text":"b"}]}"#,
    ),
    (
        "OldTree",
        Codec::Avn,
        Codec::Jer,
        r#"{ kids {}, label "x" }"#,
        r#"{"kids":[]}"#,
    ),
];

/// Converts a text by the shape of a sample, and compares what is written.
fn assert_converted(rt: &impl Abort, alloc: Global, row: &(&str, Codec, Codec, &str, &str)) {
    match shape_of(alloc, row.0) {
        Ok(Some(shape)) => {
            let written = convert(alloc, row.1, row.2, &shape, row.3);
            let_go(shape);
            assert_given(rt, written, row.4);
        }
        _ => rt.panic(row.0),
    }
}

/// Texts are written in canonical form, and what an older type lacks is left out.
#[test]
fn converts_by_a_shape(rt: HostRuntime) {
    for row in ROWS.iter() {
        assert_converted(&rt, rt.alloc(), row);
    }
}

/// Returns whether the kind of the error is `Custom`.
fn is_custom(error: DynError) -> bool {
    let is_found = matches!(error.kind, DynKind::Other(DecodeErrorKind::Custom { .. }));
    let_go(error);
    is_found
}

/// A codec that is no text notation is refused before the text is looked at.
#[test]
fn no_text_notation(rt: HostRuntime) {
    let shape = Shape::Bool;
    if !is_readable(&shape) {
        rt.panic(UNREADABLE)
    }
    let answer = read(rt.alloc(), Codec::Ber, &shape, "1");
    let_go(shape);
    assert_true(&rt, is_custom(refusal(&rt, answer)));
}

/// Returns whether the value is one of BOOLEAN.
fn is_truth(rt: &impl Abort, value: DynValue) -> bool {
    let shape = Shape::Bool;
    if !is_readable(&shape) {
        rt.panic(UNREADABLE)
    }
    let is_found = fits(&shape, &value);
    let_go(shape);
    let_go(value);
    is_found
}

/// A number is no truth value.
#[test]
fn a_value_of_another_type(rt: HostRuntime) {
    let one = DynValue::Int(WholeNumber {
        negative: false,
        magnitude: 1,
    });
    assert_true(&rt, !is_truth(&rt, one));
    assert_true(&rt, is_truth(&rt, DynValue::Bool(true)));
}
