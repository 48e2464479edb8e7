//! Calls both codecs directly by the calls under a tag, constraints or a prefix, by those of an
//! optional value, and by the one that writes a SET. The calls under a tag, constraints or a
//! prefix give what the plain call gives, since neither notation writes tags.
use crate::checks::{DECODER, MEMORY, assert_given, assert_refused, assert_refused_with, let_go};
use asn_core::{Constraints, Identifier, Tag};
use asn_fault::{DecodeError, EncodeError};
use asn_samples::MarkSet;
use asn_traits::{Decode, Decoder, Encode, Encoder, Field, SeqKind, optional};
use avn_rules::avn;
use avn_value::AvnValue;
use jer_rules::jer;
use serde_json::Value;
use std::alloc::Global;
use std::process::Abort;

/// Encodes the number 5 at the root by the call of that number.
fn write_five<E: Encoder>(encoder: &mut E, call: usize) -> Result<(), EncodeError> {
    let five: u8 = 5;
    // Four calls of the type's own `Encode` or of the encoder, and two for an optional value.
    match call {
        0 => five.encode(encoder),
        1 => five.encode_with_tag(encoder, Tag::CONTEXT_9),
        2 => five.encode_with_constraints(encoder, &Constraints::NONE),
        3 => encoder.encode_explicit_prefix::<u8>(Tag::CONTEXT_9, &five, Identifier::EMPTY),
        4 => encoder.encode_some::<u8>(&five, Identifier::EMPTY),
        _ => encoder.encode_some_with_tag_and_constraints::<u8>(
            Tag::CONTEXT_9,
            &Constraints::NONE,
            &five,
            Identifier::EMPTY,
        ),
    }
}

/// Says that a value isn't written, which ends the test.
const UNWRITTEN: &str = "not written";

/// Checks that both are the same, of which the first is what a call of a codec gives.
fn assert_call<T: PartialEq + Drop>(rt: &impl Abort, found: T, want: T, call: usize, codec: &str) {
    assert!(rt; found == want, "call {call} of {codec}");
}

/// Checks the text in JER of the number 5.
fn assert_five_in_jer(rt: &impl Abort, alloc: Global, call: usize) {
    let mut encoder = jer::enc::Encoder::new(alloc);
    write_five(&mut encoder, call).expect(rt, UNWRITTEN);
    let text = encoder.to_string().expect(rt, UNWRITTEN);
    assert_call(rt, text.as_str(), "5", call, "JER");
}

/// Checks the text in AVN of the number 5.
fn assert_five_in_avn(rt: &impl Abort, alloc: Global, call: usize) {
    let mut encoder = avn::enc::Encoder::new(alloc);
    write_five(&mut encoder, call).expect(rt, UNWRITTEN);
    let text = encoder.to_string().expect(rt, UNWRITTEN);
    assert_call(rt, text.as_str(), "5", call, "AVN");
}

/// Each call that encodes a value gives the same text, in both notations.
#[test]
fn each_writing_call_puts_the_value(rt: HostRuntime) {
    for call in 0..6 {
        assert_five_in_jer(&rt, rt.alloc(), call);
        assert_five_in_avn(&rt, rt.alloc(), call);
    }
}

/// Puts an absent slot at the root, under a tag or not.
fn write_none<E: Encoder>(encoder: &mut E, tagged: bool) -> Result<(), EncodeError> {
    if tagged {
        encoder.encode_none_with_tag(Tag::CONTEXT_9, Identifier::EMPTY)
    } else {
        encoder.encode_none::<u8>(Identifier::EMPTY)
    }
}

/// Returns the text in JER of an absent slot.
fn none_in_jer(rt: &impl Abort, alloc: Global, tagged: bool) -> Result<String, EncodeError> {
    let mut encoder = jer::enc::Encoder::new(alloc);
    write_none(&mut encoder, tagged).expect(rt, UNWRITTEN);
    encoder.to_string()
}

/// Returns the text in AVN of an absent slot.
fn none_in_avn(rt: &impl Abort, alloc: Global, tagged: bool) -> Result<String, EncodeError> {
    let mut encoder = avn::enc::Encoder::new(alloc);
    write_none(&mut encoder, tagged).expect(rt, UNWRITTEN);
    encoder.to_string()
}

/// An absent slot at the root is no value: the encoder has no text, in either notation.
/// The errors' texts are those of the crate `rasn`.
#[test]
fn an_absent_slot_leaves_no_value_at_the_root(rt: HostRuntime) {
    let alloc = rt.alloc();
    let in_jer = "JER encoding error: No encoded JSON root value found (Codec: JER)";
    let in_avn = "AVN encoding error: No encoded AVN root value found (Codec: AVN)";
    for &tagged in &[false, true] {
        assert_refused(&rt, alloc, none_in_jer(&rt, alloc, tagged), in_jer);
        assert_refused(&rt, alloc, none_in_avn(&rt, alloc, tagged), in_avn);
    }
}

/// Decodes a number by the call of that number. The calls of an optional value give `Some` where
/// the slot is present.
fn read_number<D: Decoder>(decoder: &mut D, call: usize) -> Result<Option<u8>, DecodeError> {
    // Four calls of a value that has to be there, and five of one that may be absent.
    match call {
        0 => Ok(Some(u8::decode(decoder)?)),
        1 => Ok(Some(u8::decode_with_tag(decoder, Tag::CONTEXT_9)?)),
        2 => Ok(Some(u8::decode_with_constraints(decoder, &Constraints::NONE)?)),
        3 => Ok(Some(decoder.decode_explicit_prefix::<u8>(Tag::CONTEXT_9)?)),
        4 => decoder.decode_optional::<u8>(),
        5 => decoder.decode_optional_with_explicit_prefix::<u8>(Tag::CONTEXT_9),
        6 => decoder.decode_optional_with_tag::<u8>(Tag::CONTEXT_9),
        7 => decoder.decode_optional_with_constraints::<u8>(&Constraints::NONE),
        _ => decoder.decode_optional_with_tag_and_constraints::<u8>(
            Tag::CONTEXT_9,
            &Constraints::NONE,
        ),
    }
}

/// Says that nothing is read, which ends the test.
const UNREAD: &str = "not read";

/// Decodes the number 5 from a value of JSON.
fn number_in_jer(rt: &impl Abort, alloc: Global, call: usize) -> Option<u8> {
    let five = Value::from_str(alloc, "5").expect(rt, "no JSON");
    let mut decoder = jer::de::Decoder::from_value(alloc, five).expect(rt, DECODER);
    let number = read_number(&mut decoder, call);
    let_go(decoder);
    number.expect(rt, UNREAD)
}

/// Decodes the number 5 from a value of AVN.
fn number_in_avn(rt: &impl Abort, alloc: Global, call: usize) -> Option<u8> {
    let five = String::from_str(alloc, "5").expect(rt, MEMORY);
    let made = avn::de::Decoder::from_value(alloc, AvnValue::Integer(five));
    let mut decoder = made.expect(rt, DECODER);
    let number = read_number(&mut decoder, call);
    let_go(decoder);
    number.expect(rt, UNREAD)
}

/// Each call that decodes a value takes it, in both notations.
#[test]
fn each_reading_call_takes_the_value(rt: HostRuntime) {
    for call in 0..9 {
        let number = number_in_jer(&rt, rt.alloc(), call);
        assert_call(&rt, number, Some(5), call, "JER");
        let number = number_in_avn(&rt, rt.alloc(), call);
        assert_call(&rt, number, Some(5), call, "AVN");
    }
}

/// Lists the one field of a SEQUENCE, which may be absent.
const SLOT: &'static [Field] = &[optional!(0, Tag::CONTEXT_9, "a")];

/// Decodes the field of a SEQUENCE by the call of that number.
fn read_slot<D: Decoder>(decoder: &mut D, call: usize) -> Result<Option<u8>, DecodeError> {
    match decoder.open_fields(SeqKind::Sequence, SLOT, &[]) {
        Ok(()) => read_number(decoder, call),
        Err(error) => Err(error),
    }
}

/// Decodes the absent field of a SEQUENCE from a text in JER.
fn absent_in_jer(rt: &impl Abort, alloc: Global, call: usize) -> Option<u8> {
    let mut decoder = jer::de::Decoder::new(alloc, "{}").expect(rt, DECODER);
    let number = read_slot(&mut decoder, call);
    let_go(decoder);
    number.expect(rt, UNREAD)
}

/// Decodes the absent field of a SEQUENCE from a text in AVN.
fn absent_in_avn(rt: &impl Abort, alloc: Global, call: usize) -> Option<u8> {
    let mut decoder = avn::de::Decoder::new(alloc, "{}").expect(rt, DECODER);
    let number = read_slot(&mut decoder, call);
    let_go(decoder);
    number.expect(rt, UNREAD)
}

/// Each call of an optional value finds an absent one absent, in both notations.
#[test]
fn each_optional_call_finds_no_value(rt: HostRuntime) {
    for call in 4..9 {
        let number = absent_in_jer(&rt, rt.alloc(), call);
        assert_call(&rt, number, None, call, "JER");
        let number = absent_in_avn(&rt, rt.alloc(), call);
        assert_call(&rt, number, None, call, "AVN");
    }
}

/// Encodes a set by the call of a SET, field by field: as the type lists them, and not by their
/// tags.
fn write_mark_set<E: Encoder>(encoder: &mut E, set: &MarkSet) -> Result<(), EncodeError> {
    encoder.encode_set::<MarkSet, _>(
        Tag::SET,
        |encoder: &mut E| -> Result<(), EncodeError> {
            encoder.encode_some::<i64>(&set.mark, Identifier::EMPTY)?;
            match &set.note {
                Some(note) => encoder.encode_some::<String>(note, Identifier::EMPTY),
                None => encoder.encode_none::<String>(Identifier::EMPTY),
            }
        },
        Identifier::EMPTY,
    )
}

/// Checks the text of a set in JER.
fn assert_set_in_jer(rt: &impl Abort, alloc: Global, set: &MarkSet, want: &str) {
    let mut encoder = jer::enc::Encoder::new(alloc);
    write_mark_set(&mut encoder, set).expect(rt, UNWRITTEN);
    assert_given(rt, encoder.to_string(), want);
}

/// Checks the text of a set in AVN.
fn assert_set_in_avn(rt: &impl Abort, alloc: Global, set: &MarkSet, want: &str) {
    let mut encoder = avn::enc::Encoder::new(alloc);
    write_mark_set(&mut encoder, set).expect(rt, UNWRITTEN);
    assert_given(rt, encoder.to_string(), want);
}

/// Checks the texts of a set.
fn assert_set(rt: &impl Abort, alloc: Global, note: Option<String>, in_jer: &str, in_avn: &str) {
    let set = MarkSet { mark: 2, note };
    assert_set_in_jer(rt, alloc, &set, in_jer);
    assert_set_in_avn(rt, alloc, &set, in_avn);
    let_go(set);
}

/// The call of a SET names the fields as the type lists them, in both notations, and leaves out
/// what is absent.
#[test]
fn a_set_is_written_field_by_field(rt: HostRuntime) {
    let note = String::from_str(rt.alloc(), "n").expect(&rt, MEMORY);
    assert_set(
        &rt,
        rt.alloc(),
        Some(note),
        "{\"mark\":2,\"note\":\"n\"}",
        "{\n  mark 2,\n  note \"n\"\n}",
    );
    assert_set(&rt, rt.alloc(), None, "{\"mark\":2}", "{\n  mark 2\n}");
}

/// A JSON value that a program makes may hold a float, which is of no kind that a type needs. How
/// the error prints it is unspecified, so its beginning alone is compared.
/// The beginning is that of the crate `rasn`.
#[test]
fn a_float_is_of_another_kind(rt: HostRuntime) {
    // Not by a text: `Decoder::new` refuses one with a float as a REAL.
    let float = Value::from_str(rt.alloc(), "1.5").expect(&rt, "no JSON");
    let mut decoder = jer::de::Decoder::from_value(rt.alloc(), float).expect(&rt, DECODER);
    let number = decoder.decode_integer::<u8>(Tag::INTEGER, &Constraints::NONE);
    let_go(decoder);
    // The words name the numbers that JER has, and not those of the type.
    assert_refused_with(
        &rt,
        rt.alloc(),
        number,
        "JER decoding error: Found mismatching JSON value. Expected type: number \
         (supported range -2^63..2^64).",
    );
}
