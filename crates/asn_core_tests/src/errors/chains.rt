//! Prints chains of errors, and finds what is at their ends. The texts follow those of the crate
//! `rasn` 0.30.0.
use crate::errors::checks::{assert_printed, assert_true, let_go};
use asn_core::Codec;
use asn_fault::{DecodeError, DecodeErrorKind};
use std::alloc::Global;

/// Returns an error of a number within two fields. The codec may differ from level to level: AVN
/// without, JER within.
fn within_fields(alloc: Global) -> DecodeError {
    let overflow = DecodeError::integer_overflow(8, Codec::Jer);
    let inner = DecodeError::field_error(alloc, "x", overflow, Codec::Jer);
    DecodeError::field_error(alloc, "a", inner, Codec::Avn)
}

/// Nested field errors print each level with its codec: the names come from the outside in, and the
/// codecs from the inside out.
#[test]
fn fields_print_each_level(rt: HostRuntime) {
    let error = within_fields(rt.alloc());
    assert_printed(
        &rt,
        rt.alloc(),
        error,
        "Error when decoding field `a`: Error when decoding field `x`: Actual integer larger \
         than expected 8 bits (Codec: JER) (Codec: JER) (Codec: AVN)",
    );
}

/// Returns whether the kind is the cause of `within_fields`.
fn is_overflow(kind: &DecodeErrorKind) -> bool {
    matches!(kind, DecodeErrorKind::IntegerOverflow { max_width: 8 })
}

/// Returns whether the kind is that of the levels above the cause.
fn is_field(kind: &DecodeErrorKind) -> bool {
    matches!(kind, DecodeErrorKind::FieldError { .. })
}

/// The cause is at the end of the chain, whatever the levels above it are.
#[test]
fn fields_lead_to_the_root_cause(rt: HostRuntime) {
    let error = within_fields(rt.alloc());
    assert_true(&rt, error.matches_root_cause(is_overflow));
    assert_true(&rt, !error.matches_root_cause(is_field));
    let_go(error);
}

/// Out of memory stays outside of any field. The codec is that of the level at which the field was
/// decoded.
#[test]
fn memory_stays_outside_of_fields(rt: HostRuntime) {
    let memory = DecodeError::out_of_memory(Codec::Jer);
    let memory = DecodeError::field_error(rt.alloc(), "x", memory, Codec::Avn);
    assert_printed(&rt, rt.alloc(), memory, "Out of memory (Codec: AVN)");
}
