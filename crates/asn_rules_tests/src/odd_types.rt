//! Converts texts of a SEQUENCE without fields, and of types that hand on to another.
use crate::checks::{assert_given, assert_refused, assert_same};
use asn_codec::{TranscodeError, transcode};
use asn_core::Codec;
use asn_sample_fields::Blank;
use asn_sample_trees::{Wrap1, Wrap2};
use asn_traits::{AsnType, Decode, Encode};
use std::alloc::Global;

/// Returns the text in AVN of a text in JER.
fn to_avn<T: Encode + Decode>(alloc: Global, input: &str) -> Result<String, TranscodeError> {
    transcode::<T>(alloc, Codec::Jer, Codec::Avn, input)
}

/// A SEQUENCE without fields passes over each member and each field that it finds.
#[test]
fn a_sequence_without_fields(rt: HostRuntime) {
    let alloc = rt.alloc();
    assert_given(&rt, to_avn::<Blank>(alloc, "{\"x\":[1]}"), "{}");
    let in_jer = transcode::<Blank>(alloc, Codec::Avn, Codec::Jer, "{ x 1, x 2 }");
    assert_given(&rt, in_jer, "{}");
}

/// A type that hands on to another one, which hands on to `u8`, has the texts and the errors of
/// `u8`. The error's text is that of the crate `rasn`.
#[test]
fn a_type_that_hands_on(rt: HostRuntime) {
    let alloc = rt.alloc();
    assert_given(&rt, to_avn::<Wrap2>(alloc, "200"), "200");
    assert_refused(
        &rt,
        alloc,
        to_avn::<Wrap2>(alloc, "256"),
        "Actual integer larger than expected 8 bits (Codec: JER)",
    );
    // Each ranks above the type that it hands on to.
    assert_same(&rt, u8::RANK, 0);
    assert_same(&rt, Wrap1::RANK, 1);
    assert_same(&rt, Wrap2::RANK, 2);
}
