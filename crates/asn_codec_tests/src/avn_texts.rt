//! Encodes values of each kind as the text that they have in the value notation, and decodes them
//! from it. The texts are written by the rules of X.680, in the layout of the crate `rasn`.
use crate::checks::{MEMORY, assert_given, assert_of, assert_true, is_refused};
use asn_core::OctetString;
use asn_traits::{Decode, Encode};
use avn_rules::avn;
use std::alloc::Global;
use std::process::Abort;

/// Checks that the value is encoded as the text, and decoded from it.
fn is_text_of<T: Encode + Decode + PartialEq>(
    rt: &impl Abort,
    alloc: Global,
    value: T,
    text: &str,
) {
    assert_given(rt, avn::encode(alloc, &value), text);
    let read: T = avn::decode(alloc, text).expect(rt, text);
    assert_of(rt, read == value, text);
}

/// Booleans and NULL have their texts, both ways.
#[test]
fn keywords_are_values(rt: HostRuntime) {
    let alloc = rt.alloc();
    is_text_of(&rt, alloc, true, "TRUE");
    is_text_of(&rt, alloc, false, "FALSE");
    is_text_of(&rt, alloc, (), "NULL");
}

/// Numbers are written in decimal, and the widest ones whole.
#[test]
fn numbers_are_their_texts(rt: HostRuntime) {
    let alloc = rt.alloc();
    is_text_of(&rt, alloc, -5i8, "-5");
    is_text_of(&rt, alloc, i64::MIN, "-9223372036854775808");
    is_text_of(
        &rt,
        alloc,
        u128::MAX,
        "340282366920938463463374607431768211455",
    );
}

/// Returns an owned text.
fn string(rt: &impl Abort, alloc: Global, text: &str) -> String {
    String::from_str(alloc, text).expect(rt, MEMORY)
}

/// A quote in a text is written twice, beside a character of two bytes too. Two quotes at the end
/// are one quote of the text, so that text isn't closed.
/// The texts follow from the rule of doubled quotes (X.680, section 12).
#[test]
fn quotes_are_doubled(rt: HostRuntime) {
    let alloc = rt.alloc();
    let said = string(&rt, alloc, "say \"hi\"");
    is_text_of(&rt, alloc, said, "\"say \"\"hi\"\"\"");
    let accent = string(&rt, alloc, "a\"\u{e9}b\"");
    is_text_of(&rt, alloc, accent, "\"a\"\"\u{e9}b\"\"\"");
    assert_true(&rt, is_refused(avn::decode::<String>(alloc, "\"a\"\"")));
}

/// An empty list is written on one line, and others with a line for each element.
#[test]
fn lists_are_their_texts(rt: HostRuntime) {
    let none: Vec<u8> = Vec::new(rt.alloc());
    is_text_of(&rt, rt.alloc(), none, "{}");
    let two = Vec::from_array(rt.alloc(), [1u8, 2]).expect(&rt, MEMORY);
    is_text_of(&rt, rt.alloc(), two, "{\n  1,\n  2\n}");
}

/// Lists octets that come again and again in a long value, each with its digits. They are three,
/// so that the octets before and after 256 of them differ.
const CYCLE: [(u8, &'static str); 3] = [(0x01, "01"), (0x2F, "2F"), (0xA5, "A5")];

/// Returns so many octets, in turn those of the list.
fn long_octets(rt: &impl Abort, alloc: Global, count: usize) -> OctetString {
    let mut octets = Vec::new(alloc);
    for (octet, _digits) in CYCLE.iter().cycle().take(count) {
        octets.push(*octet).expect(rt, MEMORY);
    }
    OctetString::from_vec(octets)
}

/// Returns the text of so many octets: two digits for each, between apostrophes.
fn long_digits(rt: &impl Abort, alloc: Global, count: usize) -> String {
    let mut text = string(rt, alloc, "'");
    for (_octet, digits) in CYCLE.iter().cycle().take(count) {
        text.push_str(digits).expect(rt, MEMORY);
    }
    text.push_str("'H").expect(rt, MEMORY);
    text
}

/// Digits are read and printed for 256 octets together. Around that number, and after two times so
/// many, octets have their texts as elsewhere, both ways.
/// The texts follow from X.680, section 23.
#[test]
fn long_octets_are_their_texts(rt: HostRuntime) {
    let alloc = rt.alloc();
    for &count in &[255, 256, 257, 513] {
        let text = long_digits(&rt, alloc, count);
        is_text_of(&rt, alloc, long_octets(&rt, alloc, count), text.as_str());
    }
}

/// Lists texts that decode to no `u8`.
const NO_OCTETS: [&str; 4] = [
    "256",
    "-1",
    "340282366920938463463374607431768211456",
    "TRUE",
];

/// A number on either side of the range, one of more than 128 bits, and a value of another kind
/// are refused.
#[test]
fn other_values_are_refused(rt: HostRuntime) {
    for &text in &NO_OCTETS {
        assert_of(&rt, is_refused(avn::decode::<u8>(rt.alloc(), text)), text);
    }
}
