//! Tests bit strings and object identifiers by calls that no text makes.
use crate::checks::{MEMORY, assert_given, assert_refused, assert_same, let_go};
use asn_core::{Bits, Identifier, ObjectIdentifier, Tag};
use asn_fault::DecodeError;
use asn_sample_fields::{ConstrainedBitString, ExtensibleBitString};
use asn_traits::{Decode, Encoder as _};
use avn_rules::avn;
use avn_value::AvnValue;
use jer_rules::jer;
use std::alloc::Global;
use std::process::Abort;

/// Returns the first five bits of an octet.
fn five_bits(rt: &impl Abort, alloc: Global) -> Bits {
    let octets = Vec::from_slice(alloc, [0xAF].as_slice()).expect(rt, MEMORY);
    Bits::from_first_bits(octets, 5)
}

/// A value of another length than its fixed size is written in AVN, and JER has no text for it.
#[test]
fn bits_of_another_length_than_the_fixed_size(rt: HostRuntime) {
    let alloc = rt.alloc();
    let bits = five_bits(&rt, alloc);
    let fixed = ConstrainedBitString { bits };
    assert_given(&rt, avn::encode(alloc, &fixed), "'10101'B");
    assert_refused(
        &rt,
        alloc,
        jer::encode(alloc, &fixed),
        "Size constraint not satisfied: expected: 3; actual: 5 (Codec: JER)",
    );
}

/// A size with an extension marker is not fixed, and JER writes the length.
#[test]
fn bits_of_another_length_than_an_extensible_size(rt: HostRuntime) {
    let alloc = rt.alloc();
    let bits = five_bits(&rt, alloc);
    let extensible = ExtensibleBitString { bits };
    assert_given(
        &rt,
        jer::encode(alloc, &extensible),
        "{\"length\":5,\"value\":\"A8\"}",
    );
}

/// Decodes a value of AVN that no text gives.
fn decoded<T: Decode>(rt: &impl Abort, alloc: Global, value: AvnValue) -> Result<T, DecodeError> {
    let mut decoder = avn::de::Decoder::from_value(alloc, value).expect(rt, "no decoder");
    let answer = T::decode(&mut decoder);
    let_go(decoder);
    answer
}

/// Returns a bit string of one octet, and more bits than that.
fn short_bits(rt: &impl Abort, alloc: Global) -> AvnValue {
    AvnValue::BitString {
        bytes: Vec::from_slice(alloc, [0xA0].as_slice()).expect(rt, MEMORY),
        bit_length: 20,
    }
}

/// Bits beyond the octets that there are count for none: eight bits are read.
#[test]
fn fewer_octets_than_the_bits_need(rt: HostRuntime) {
    let short = short_bits(&rt, rt.alloc());
    let bits: Bits = decoded(&rt, rt.alloc(), short).expect(&rt, "no bits");
    assert_same(&rt, bits.len(), 8);
    assert_same(&rt, bits.octets(), [0xA0].as_slice());
}

/// Decodes an object identifier from a value of AVN with these arcs.
fn of_arcs(rt: &impl Abort, alloc: Global, arcs: &[u32]) -> Result<ObjectIdentifier, DecodeError> {
    let arcs = Vec::from_slice(alloc, arcs).expect(rt, MEMORY);
    decoded(rt, alloc, AvnValue::Oid(arcs))
}

/// Arcs are read as an object identifier.
#[test]
fn arcs_are_read(rt: HostRuntime) {
    let read = of_arcs(&rt, rt.alloc(), &[2, 5]);
    let identifier = read.expect(&rt, "no object identifier");
    assert_same(&rt, identifier.arcs(), [2, 5].as_slice());
}

/// The second arc is below 40 under the first two. The error's text is that of the crate `rasn`.
#[test]
fn arcs_that_are_no_object_identifier(rt: HostRuntime) {
    assert_refused(
        &rt,
        rt.alloc(),
        of_arcs(&rt, rt.alloc(), &[0, 40]),
        "AVN decoding error: Invalid OID in AVN: [0, 40] (Codec: AVN)",
    );
}

/// An encoder writes the arcs that it is handed.
#[test]
fn arcs_are_written_as_they_are(rt: HostRuntime) {
    let mut encoder = jer::enc::Encoder::new(rt.alloc());
    encoder
        .encode_object_identifier(Tag::OBJECT_IDENTIFIER, &[0, 40], Identifier::EMPTY)
        .expect(&rt, "no arcs");
    assert_given(&rt, encoder.to_string(), "\"0.40\"");
}
