//! Calls JER directly: the edges of its numbers, shapes of types, and an encoder without a value.
use crate::checks::{MEMORY, assert_given, assert_refused, assert_true, let_go};
use asn_core::{Bits, Identifier, Tag};
use asn_fields::FieldShapes;
use asn_traits::{AsnType, Encode, Encoder, Shape, is_readable};
use jer_rules::jer::{enc, encode};
use std::alloc::Global;
use std::process::Abort;

/// Is the least number that JER has, as the wider type of its values.
const LEAST: i128 = -9_223_372_036_854_775_808;

/// The least number that JER has is encoded: it has the numbers of `i64` and of `u64`.
#[test]
fn encodes_the_least_number(rt: HostRuntime) {
    assert_given(&rt, encode(rt.alloc(), &LEAST), "-9223372036854775808");
}

/// The number below it, -2^63 - 1, is refused by its own text.
/// The error's text is that of the crate `rasn`.
#[test]
fn refuses_numbers_that_json_lacks(rt: HostRuntime) {
    let below: i128 = -9_223_372_036_854_775_809;
    assert_refused(
        &rt,
        rt.alloc(),
        encode(rt.alloc(), &below),
        "JER encoding error: Exceeds supported integer range -2^63..2^64 \
         (-9223372036854775809) (Codec: JER)",
    );
}

/// Returns whether the shape is that of BOOLEAN.
fn is_bool(shape: &Shape) -> bool {
    matches!(shape, Shape::Bool)
}

/// Returns whether the shape is that of a list of BOOLEAN.
fn is_list_of_bool(shape: &Shape) -> bool {
    match shape {
        Shape::ListOf(element) => is_bool(&**element),
        _ => false,
    }
}

/// The call `shape` gives the shape of BOOLEAN as a value.
#[test]
fn gives_the_shape_of_a_boolean(rt: HostRuntime) {
    let shape = bool::shape(rt.alloc()).expect(&rt, MEMORY);
    assert_true(&rt, is_bool(&shape));
    let_go(shape);
}

/// The call `shape` gives the shape of a list of BOOLEAN as a value.
#[test]
fn gives_the_shape_of_a_list(rt: HostRuntime) {
    let shape = Vec::<bool>::shape(rt.alloc()).expect(&rt, MEMORY);
    assert_true(&rt, is_list_of_bool(&shape));
    let_go(shape);
}

/// Returns the fields of the root: one that has to be present.
fn root_fields(rt: &impl Abort, alloc: Global) -> FieldShapes {
    let mut root = FieldShapes::new(alloc);
    let done = root.required::<u8>("id", Tag::CONTEXT_0);
    done.expect(rt, MEMORY);
    root
}

/// Returns the fields after the marker. An addition's tag goes on from that of the last root field.
fn added_fields(rt: &impl Abort, alloc: Global) -> FieldShapes {
    let mut added = FieldShapes::new(alloc);
    let done = added.optional::<String>("note", Tag::CONTEXT_1);
    done.expect(rt, MEMORY);
    added
}

/// Returns whether the shape has one field of the root and one after the marker, of these names.
fn has_fields(shape: &Shape, root: &str, added: &str) -> bool {
    match shape {
        Shape::Seq {
            fields,
            added: Some(additions),
            ..
        } => match (fields.as_slice(), additions.as_slice()) {
            ([field], [addition]) => {
                field.name.as_str() == root && addition.name.as_str() == added
            }
            _ => false,
        },
        _ => false,
    }
}

/// A shape with an extension addition can be put together and read: it has the fields of the root
/// and those after the marker apart.
#[test]
fn a_sequence_with_an_extension_addition(rt: HostRuntime) {
    let root = root_fields(&rt, rt.alloc());
    let shape = root.extensible_sequence(added_fields(&rt, rt.alloc()));
    let is_found = is_readable(&shape) && has_fields(&shape, "id", "note");
    let_go(shape);
    assert_true(&rt, is_found);
}

/// Is the error of an encoder of JER that was given nothing, as that of the crate `rasn`.
const NOTHING: &str = "JER encoding error: No encoded JSON root value found (Codec: JER)";

/// An encoder of JER that was given nothing has no text. The call consumes the encoder.
#[test]
fn nothing_stands_at_the_root_at_first(rt: HostRuntime) {
    let none = enc::Encoder::new(rt.alloc()).to_string();
    assert_refused(&rt, rt.alloc(), none, NOTHING);
}

/// An encoder of JER that was given nothing has no JSON value. The call consumes the encoder.
#[test]
fn no_value_stands_at_the_root_at_first(rt: HostRuntime) {
    let none = enc::Encoder::new(rt.alloc()).to_json();
    assert_refused(&rt, rt.alloc(), none, NOTHING);
}

/// Returns an encoder of JER that was given the value `true`.
fn encoder_of_true(rt: &impl Abort, alloc: Global) -> enc::Encoder {
    let mut encoder = enc::Encoder::new(alloc);
    let written = encoder.encode_bool(Tag::BOOL, true, Identifier::EMPTY);
    written.expect(rt, "no value");
    encoder
}

/// An encoder of JER that was given a value has its text and its JSON value.
#[test]
fn shows_what_stands_at_the_root(rt: HostRuntime) {
    let encoder = encoder_of_true(&rt, rt.alloc());
    assert_given(&rt, encoder.to_string(), "true");
    let encoder = encoder_of_true(&rt, rt.alloc());
    let value = encoder.to_json().expect(&rt, "no JSON");
    assert_true(&rt, value.as_bool() == Some(true));
    let_go(value);
}

/// Returns an encoder of JER that was given a list of one bit string, of three bits.
fn encoder_of_bits(rt: &impl Abort, alloc: Global) -> enc::Encoder {
    let octets = Vec::from_slice(alloc, &[0xA0]).expect(rt, MEMORY);
    let list = Vec::from_array(alloc, [Bits::from_first_bits(octets, 3)]).expect(rt, MEMORY);
    let mut encoder = enc::Encoder::new(alloc);
    list.encode(&mut encoder).expect(rt, "no value");
    let_go(list);
    encoder
}

/// The JSON value of a list of bit strings holds a list, an object, a number and a text.
#[test]
fn has_the_value_at_the_root(rt: HostRuntime) {
    let encoder = encoder_of_bits(&rt, rt.alloc());
    let value = encoder.to_json().expect(&rt, "no JSON");
    let text = value.to_string(rt.alloc());
    let_go(value);
    // Bits are written as X.697 has them: their number, and their octets in hexadecimal digits.
    assert_given(&rt, text, "[{\"length\":3,\"value\":\"A0\"}]");
}
