//! Calls both codecs directly by each call for an extension addition. Such a call gives what the
//! plain call of the type gives, and a group is one field.
use crate::checks::{assert_given, assert_refused, assert_same, let_go};
use asn_core::{Constraints, Identifier, Tag};
use asn_fault::{DecodeError, EncodeError};
use asn_sample_fields::Struct;
use asn_traits::{Decoder, Encoder, Field, SeqKind, optional};
use avn_rules::avn;
use avn_value::parse_avn;
use jer_rules::jer;
use serde_json::Value;
use std::alloc::Global;
use std::process::Abort;

/// Lists what each call of `write_addition` puts at the root, in JER and in AVN.
const WRITTEN: [(&'static str, &'static str); 2] = [
    ("{\"strct\":1}", "{\n  strct 1\n}"),
    ("5", "5"),
];

/// Is the call of `write_addition` that leaves the group out.
const LEFT_OUT: usize = WRITTEN.len();

/// Encodes a group, a number or no group at the root, by the call of that number.
fn write_addition<E: Encoder>(encoder: &mut E, call: usize) -> Result<(), EncodeError> {
    let group = Struct { strct: Some(1) };
    let five: u8 = 5;
    match call {
        0 => encoder.encode_extension_addition_group::<Struct>(Some(&group), Identifier::EMPTY),
        1 => encoder.encode_extension_addition::<u8>(
            Tag::CONTEXT_9,
            &Constraints::NONE,
            &five,
            Identifier::EMPTY,
        ),
        _ => encoder.encode_extension_addition_group::<Struct>(None, Identifier::EMPTY),
    }
}

/// Returns the text in JER of what the call puts.
fn written_in_jer(rt: &impl Abort, alloc: Global, call: usize) -> Result<String, EncodeError> {
    let mut encoder = jer::enc::Encoder::new(alloc);
    write_addition(&mut encoder, call).expect(rt, "no addition");
    encoder.to_string()
}

/// Returns the text in AVN of what the call puts.
fn written_in_avn(rt: &impl Abort, alloc: Global, call: usize) -> Result<String, EncodeError> {
    let mut encoder = avn::enc::Encoder::new(alloc);
    write_addition(&mut encoder, call).expect(rt, "no addition");
    encoder.to_string()
}

/// Each call puts its value, in both notations.
#[test]
fn each_writing_call_puts_the_addition(rt: HostRuntime) {
    for (call, row) in WRITTEN.iter().enumerate() {
        assert_given(&rt, written_in_jer(&rt, rt.alloc(), call), row.0);
        assert_given(&rt, written_in_avn(&rt, rt.alloc(), call), row.1);
    }
}

/// A group that is left out puts nothing, in both notations, and an encoder without a value has the
/// error of the crate `rasn`.
#[test]
fn a_group_that_is_left_out_puts_nothing(rt: HostRuntime) {
    let alloc = rt.alloc();
    assert_refused(
        &rt,
        alloc,
        written_in_jer(&rt, alloc, LEFT_OUT),
        "JER encoding error: No encoded JSON root value found (Codec: JER)",
    );
    assert_refused(
        &rt,
        alloc,
        written_in_avn(&rt, alloc, LEFT_OUT),
        "AVN encoding error: No encoded AVN root value found (Codec: AVN)",
    );
}

/// Decodes a group, or what a tagged call gives of a number, by the call of that number.
fn read_addition<D: Decoder>(decoder: &mut D, call: usize) -> Result<Option<u8>, DecodeError> {
    match call {
        0 => {
            let group = decoder.decode_extension_addition_group::<Struct>()?;
            Ok(group.and_then(|group| group.strct))
        }
        1 => decoder.decode_extension_addition_with_explicit_tag_and_constraints::<u8>(
            Tag::CONTEXT_9,
            &Constraints::NONE,
        ),
        _ => decoder.decode_extension_addition_with_tag_and_constraints::<u8>(
            Tag::CONTEXT_9,
            &Constraints::NONE,
        ),
    }
}

/// Lists a tree in JSON and in AVN for each call of `read_addition`, and what the call takes.
const READ: [(&'static str, &'static str, u8); 3] = [
    ("{\"strct\":1}", "{strct 1}", 1),
    ("5", "5", 5),
    ("5", "5", 5),
];

/// Decodes a tree in JSON by the call of that number.
fn read_from_json(rt: &impl Abort, alloc: Global, json: &str, call: usize) -> Option<u8> {
    let tree = Value::from_str(alloc, json).expect(rt, "no JSON");
    let mut decoder = jer::de::Decoder::from_value(alloc, tree).expect(rt, "no decoder");
    let number = read_addition(&mut decoder, call);
    let_go(decoder);
    number.expect(rt, "no number")
}

/// Decodes a tree in AVN by the call of that number.
fn read_from_avn(rt: &impl Abort, alloc: Global, text: &str, call: usize) -> Option<u8> {
    let tree = parse_avn(alloc, text).expect(rt, "no AVN");
    let mut decoder = avn::de::Decoder::from_value(alloc, tree).expect(rt, "no decoder");
    let number = read_addition(&mut decoder, call);
    let_go(decoder);
    number.expect(rt, "no number")
}

/// Each call takes what stands for the addition, in both notations.
#[test]
fn each_reading_call_takes_the_addition(rt: HostRuntime) {
    for (call, row) in READ.iter().enumerate() {
        let in_jer = read_from_json(&rt, rt.alloc(), row.0, call);
        assert_same(&rt, in_jer, Some(row.2));
        let in_avn = read_from_avn(&rt, rt.alloc(), row.1, call);
        assert_same(&rt, in_avn, Some(row.2));
    }
}

/// Lists the one field of a SEQUENCE, which may be absent.
const SLOT: &'static [Field] = &[optional!(0, Tag::CONTEXT_9, "a")];

/// Decodes the field of a SEQUENCE by the call of that number.
fn read_slot<D: Decoder>(decoder: &mut D, call: usize) -> Result<Option<u8>, DecodeError> {
    match decoder.open_fields(SeqKind::Sequence, SLOT, &[]) {
        Ok(()) => read_addition(decoder, call),
        Err(error) => Err(error),
    }
}

/// Decodes the absent field of a SEQUENCE from a text in JER.
fn absent_in_jer(rt: &impl Abort, alloc: Global, call: usize) -> Option<u8> {
    let mut decoder = jer::de::Decoder::new(alloc, "{}").expect(rt, "no decoder");
    let number = read_slot(&mut decoder, call);
    let_go(decoder);
    number.expect(rt, "no slot")
}

/// Decodes the absent field of a SEQUENCE from a text in AVN.
fn absent_in_avn(rt: &impl Abort, alloc: Global, call: usize) -> Option<u8> {
    let mut decoder = avn::de::Decoder::new(alloc, "{}").expect(rt, "no decoder");
    let number = read_slot(&mut decoder, call);
    let_go(decoder);
    number.expect(rt, "no slot")
}

/// Each call finds an absent addition absent, in both notations.
#[test]
fn each_reading_call_finds_no_addition(rt: HostRuntime) {
    for call in 0..READ.len() {
        assert_same(&rt, absent_in_jer(&rt, rt.alloc(), call), None);
        assert_same(&rt, absent_in_avn(&rt, rt.alloc(), call), None);
    }
}
