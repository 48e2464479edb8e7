//! Passes a text on by each call that is named for one type of strings or of times: it is read in
//! one notation and written in the other.
use crate::checks::{DECODER, assert_given, let_go};
use asn_core::{Constraints, Identifier, Tag};
use asn_fault::EncodeError;
use asn_traits::{Decoder, Encoder};
use avn_rules::avn;
use jer_rules::jer;
use std::alloc::Global;
use std::process::Abort;

/// Says that a text isn't read, which ends the test.
const UNREAD: &str = "no value";

/// Reads a string by the call of that number, and writes it by the call of the same name.
fn pass_string<D: Decoder, E: Encoder>(
    rt: &impl Abort,
    decoder: &mut D,
    encoder: &mut E,
    call: usize,
) -> Result<(), EncodeError> {
    let all = &Constraints::NONE;
    let name = Identifier::EMPTY;
    match call {
        0 => {
            let text = decoder.decode_numeric_string(Tag::NUMERIC_STRING, all);
            let text = text.expect(rt, UNREAD);
            encoder.encode_numeric_string(Tag::NUMERIC_STRING, all, &text, name)
        }
        1 => {
            let text = decoder.decode_printable_string(Tag::PRINTABLE_STRING, all);
            let text = text.expect(rt, UNREAD);
            encoder.encode_printable_string(Tag::PRINTABLE_STRING, all, &text, name)
        }
        2 => {
            let text = decoder.decode_visible_string(Tag::VISIBLE_STRING, all);
            let text = text.expect(rt, UNREAD);
            encoder.encode_visible_string(Tag::VISIBLE_STRING, all, &text, name)
        }
        3 => {
            let text = decoder.decode_ia5_string(Tag::IA5_STRING, all);
            let text = text.expect(rt, UNREAD);
            encoder.encode_ia5_string(Tag::IA5_STRING, all, &text, name)
        }
        4 => {
            let text = decoder.decode_general_string(Tag::GENERAL_STRING, all);
            let text = text.expect(rt, UNREAD);
            encoder.encode_general_string(Tag::GENERAL_STRING, all, &text, name)
        }
        5 => {
            let text = decoder.decode_graphic_string(Tag::GRAPHIC_STRING, all);
            let text = text.expect(rt, UNREAD);
            encoder.encode_graphic_string(Tag::GRAPHIC_STRING, all, &text, name)
        }
        _ => {
            let text = decoder.decode_bmp_string(Tag::BMP_STRING, all);
            let text = text.expect(rt, UNREAD);
            encoder.encode_bmp_string(Tag::BMP_STRING, all, &text, name)
        }
    }
}

/// Reads a time by the call of that number, and writes it by the call of the same name.
fn pass_time<D: Decoder, E: Encoder>(
    rt: &impl Abort,
    decoder: &mut D,
    encoder: &mut E,
    call: usize,
) -> Result<(), EncodeError> {
    let name = Identifier::EMPTY;
    match call {
        0 => {
            let time = decoder.decode_utc_time(Tag::UTC_TIME).expect(rt, UNREAD);
            encoder.encode_utc_time(Tag::UTC_TIME, &time, name)
        }
        1 => {
            let time = decoder.decode_generalized_time(Tag::GENERALIZED_TIME);
            let time = time.expect(rt, UNREAD);
            encoder.encode_generalized_time(Tag::GENERALIZED_TIME, &time, name)
        }
        _ => {
            let day = decoder.decode_date(Tag::DATE).expect(rt, UNREAD);
            encoder.encode_date(Tag::DATE, &day, name)
        }
    }
}

/// Passes a string on, or a time, by the call of that number.
fn pass_on<D: Decoder, E: Encoder>(
    rt: &impl Abort,
    decoder: &mut D,
    encoder: &mut E,
    is_time: bool,
    call: usize,
) {
    let passed = if is_time {
        pass_time(rt, decoder, encoder, call)
    } else {
        pass_string(rt, decoder, encoder, call)
    };
    passed.expect(rt, "not written");
}

/// Checks that a text in JER is read, and written in AVN as it was.
fn assert_jer_to_avn(rt: &impl Abort, alloc: Global, text: &str, is_time: bool, call: usize) {
    let mut decoder = jer::de::Decoder::new(alloc, text).expect(rt, DECODER);
    let mut encoder = avn::enc::Encoder::new(alloc);
    pass_on(rt, &mut decoder, &mut encoder, is_time, call);
    let_go(decoder);
    assert_given(rt, encoder.to_string(), text);
}

/// Checks that a text in AVN is read, and written in JER as it was.
fn assert_avn_to_jer(rt: &impl Abort, alloc: Global, text: &str, is_time: bool, call: usize) {
    let mut decoder = avn::de::Decoder::new(alloc, text).expect(rt, DECODER);
    let mut encoder = jer::enc::Encoder::new(alloc);
    pass_on(rt, &mut decoder, &mut encoder, is_time, call);
    let_go(decoder);
    assert_given(rt, encoder.to_string(), text);
}

/// Lists a text for each call of `pass_string`, the same in both notations.
const STRINGS: [&str; 7] = [
    "\"1 2\"",
    "\"A'b\"",
    "\"~\"",
    "\"a~\"",
    "\"\u{e9}\"",
    "\"\u{e9}\"",
    "\"\u{e9}\"",
];

/// Lists a text for each call of `pass_time`, the same in both notations.
const TIMES: [&str; 3] = ["\"991231235959Z\"", "\"20261129010203Z\"", "\"2026-11-29\""];

/// A string keeps its text, by each call and both ways.
#[test]
fn strings_are_passed_on(rt: HostRuntime) {
    for (call, &text) in STRINGS.iter().enumerate() {
        assert_jer_to_avn(&rt, rt.alloc(), text, false, call);
        assert_avn_to_jer(&rt, rt.alloc(), text, false, call);
    }
}

/// A time keeps its text, by each call and both ways.
#[test]
fn times_are_passed_on(rt: HostRuntime) {
    for (call, &text) in TIMES.iter().enumerate() {
        assert_jer_to_avn(&rt, rt.alloc(), text, true, call);
        assert_avn_to_jer(&rt, rt.alloc(), text, true, call);
    }
}
