//! Converts texts of a SEQUENCE of nine fields, and of a SET with an extension marker.
use crate::checks::{MEMORY, assert_given, assert_same, assert_text, assert_true, let_go};
use asn_by_hand::{GrowingSet, Wide};
use asn_codec::{CodecCalls, transcode};
use asn_core::Codec;
use asn_traits::{Decode, Encode};
use std::alloc::Global;
use std::fmt::Display;
use std::process::Abort;

/// Has each field, in byte order of names, as JER writes them.
const ALL_IN_JER: &'static str = "{\"active\":true,\"age\":41,\"code\":-7,\"family\":\"Roe\",\
    \"given\":\"Ann\",\"hidden\":false,\"mark\":null,\"nick\":\"A\",\"size\":3}";

/// Lists the source's codec, the target's, a text and what it is converted to. Fields stand in any
/// order in a text. AVN writes them as they are declared.
const CONVERTED: [(Codec, Codec, &'static str, &'static str); 5] = [
    (
        Codec::Jer,
        Codec::Avn,
        ALL_IN_JER,
        "{\n  family \"Roe\",\n  given \"Ann\",\n  nick \"A\",\n  age 41,\n  code -7,\n  \
        size 3,\n  active TRUE,\n  hidden FALSE,\n  mark NULL\n}",
    ),
    (
        Codec::Avn,
        Codec::Jer,
        "{mark NULL, hidden FALSE, active TRUE, size 3, code -7, age 41, nick \"A\", \
        given \"Ann\", family \"Roe\"}",
        ALL_IN_JER,
    ),
    // Fields that may be absent are absent.
    (
        Codec::Jer,
        Codec::Avn,
        "{\"active\":true,\"age\":41,\"code\":-7,\"family\":\"Roe\",\"given\":\"Ann\"}",
        "{\n  family \"Roe\",\n  given \"Ann\",\n  age 41,\n  code -7,\n  active TRUE\n}",
    ),
    // A field of the last group is refused under its name.
    (
        Codec::Jer,
        Codec::Avn,
        "{\"active\":1,\"age\":41,\"code\":-7,\"family\":\"Roe\",\"given\":\"Ann\"}",
        "Error when decoding field `active`: JER decoding error: Found mismatching JSON value. \
        Expected type: boolean. Found value: 1 (Codec: JER) (Codec: JER)",
    ),
    // Of two fields that are refused the first one as they are declared counts.
    (
        Codec::Jer,
        Codec::Avn,
        "{\"active\":1,\"age\":256,\"code\":-7,\"family\":\"Roe\",\"given\":\"Ann\"}",
        "Error when decoding field `age`: Actual integer larger than expected 8 bits \
        (Codec: JER) (Codec: JER)",
    ),
];

/// Lists the same of a SET with an extension marker. Its fields and its addition stand in any
/// order in a text, and a member of another name is dropped. AVN writes the fields as they are
/// declared, and not by their tags, and the addition last.
const GROWING: [(Codec, Codec, &'static str, &'static str); 6] = [
    (
        Codec::Jer,
        Codec::Avn,
        "{\"note\":\"n\",\"extra\":true,\"mark\":2}",
        "{\n  mark 2,\n  note \"n\",\n  extra TRUE\n}",
    ),
    (
        Codec::Avn,
        Codec::Jer,
        "{extra FALSE, note \"n\", mark -2}",
        "{\"extra\":false,\"mark\":-2,\"note\":\"n\"}",
    ),
    // The addition is absent, as in a text of an older version.
    (
        Codec::Jer,
        Codec::Avn,
        "{\"mark\":2,\"note\":\"n\"}",
        "{\n  mark 2,\n  note \"n\"\n}",
    ),
    // An addition that this version lacks is dropped, and the text has none after that.
    (Codec::Avn, Codec::Jer, "{other 1, mark 2}", "{\"mark\":2}"),
    // Of two fields that are refused the one with the smaller tag counts, whatever their order.
    (
        Codec::Jer,
        Codec::Avn,
        "{\"mark\":true,\"note\":3}",
        "Error when decoding field `note`: JER decoding error: Found mismatching JSON value. \
        Expected type: string. Found value: 3 (Codec: JER) (Codec: JER)",
    ),
    // The addition is refused under its name.
    (
        Codec::Jer,
        Codec::Avn,
        "{\"extra\":1,\"mark\":2}",
        "Error when decoding field `extra`: JER decoding error: Found mismatching JSON value. \
        Expected type: boolean. Found value: 1 (Codec: JER) (Codec: JER)",
    ),
];

/// Checks that the call gives this text, or an error that prints it.
fn assert_answer<E: Display + Drop>(
    rt: &impl Abort,
    alloc: Global,
    answer: Result<String, E>,
    want: &str,
) {
    match answer {
        Ok(text) => assert_text(rt, text.as_str(), want),
        Err(error) => {
            let text = error.to_string(alloc).expect(rt, MEMORY);
            assert_text(rt, text.as_str(), want);
        }
    }
}

/// Checks what a text of the type is converted to, or the text of the error.
fn assert_converted<T: Encode + Decode>(
    rt: &impl Abort,
    alloc: Global,
    row: &(Codec, Codec, &'static str, &'static str),
) {
    let answer = transcode::<T>(alloc, row.0, row.1, row.2);
    assert_answer(rt, alloc, answer, row.3);
}

/// Each text of the SEQUENCE is converted, or refused.
#[test]
fn texts_are_converted(rt: HostRuntime) {
    for row in CONVERTED.iter() {
        assert_converted::<Wide>(&rt, rt.alloc(), row);
    }
}

/// Each text of the SET is converted, or refused.
#[test]
fn texts_of_a_growing_set_are_converted(rt: HostRuntime) {
    for row in GROWING.iter() {
        assert_converted::<GrowingSet>(&rt, rt.alloc(), row);
    }
}

/// Checks the fields of the first group.
fn assert_names(rt: &impl Abort, wide: &Wide) {
    assert_text(rt, wide.names.family.as_str(), "Roe");
    assert_text(rt, wide.names.given.as_str(), "Ann");
    match &wide.names.nick {
        Some(nick) => assert_text(rt, nick.as_str(), "A"),
        None => rt.panic("no nick"),
    }
}

/// Checks the fields of the other groups.
fn assert_rest(rt: &impl Abort, wide: &Wide) {
    assert_same(rt, wide.rest.numbers.age, 41);
    assert_same(rt, wide.rest.numbers.code, -7);
    assert_same(rt, wide.rest.numbers.size, Some(3));
    assert_true(rt, wide.rest.flags.active);
    assert_same(rt, wide.rest.flags.hidden, Some(false));
    assert_same(rt, wide.rest.flags.mark, Some(()));
}

/// Each field is read into its place in its group, and written from there.
#[test]
fn fields_are_in_their_groups(rt: HostRuntime) {
    let read = Codec::Jer.decode_from_str::<Wide>(rt.alloc(), ALL_IN_JER);
    let wide = read.expect(&rt, "no value");
    assert_names(&rt, &wide);
    assert_rest(&rt, &wide);
    let written = Codec::Jer.encode_to_string(rt.alloc(), &wide);
    let_go(wide);
    assert_given(&rt, written, ALL_IN_JER);
}
