//! Tests the strings on the edges of their alphabets. The expected values come from the alphabets
//! of X.680, section 41.
use crate::checks::{
    MEMORY, assert_octets, assert_of, assert_printed, assert_same, assert_text, assert_true,
    is_equal, octets, owned,
};
use asn_strings::{
    BmpString, GeneralString, GraphicString, Ia5String, NumericString, PrintableString,
    StringFault, TeletexString, UnitFault, UniversalString, VisibleString,
};
use std::alloc::Global;
use std::process::Abort;

/// Lists a type, a text, and the place of the first character outside the alphabet.
const CASES: [(&str, &str, Option<usize>); 17] = [
    ("NumericString", "1 2", None),
    ("PrintableString", "1 2", None),
    ("VisibleString", "1 2", None),
    ("IA5String", "1 2", None),
    ("GeneralString", "1 2", None),
    ("GraphicString", "1 2", None),
    ("BMPString", "1 2", None),
    ("UniversalString", "1 2", None),
    ("NumericString", "12a", Some(2)),
    ("PrintableString", "Az09 '()+,-./:=?*", Some(16)),
    ("VisibleString", "~\u{7F}", Some(1)),
    ("IA5String", "\u{7F}\u{80}", Some(1)),
    ("GeneralString", "\0\u{1F600}", None),
    ("GraphicString", "é\u{7F}", Some(1)),
    ("BMPString", "\u{FFFF}", None),
    ("BMPString", "\u{1F600}", Some(0)),
    ("UniversalString", "\u{1F600}", None),
];

/// Returns the place that a result names. The string itself is dropped.
fn place_of<T: Drop>(rt: &impl Abort, answer: Result<T, StringFault>) -> Option<usize> {
    match answer {
        Ok(_) => None,
        Err(StringFault::Alphabet { place }) => Some(place),
        Err(StringFault::OutOfMemory) => rt.panic(MEMORY),
    }
}

/// Returns the place outside the alphabet of the type of that name.
fn place_outside(rt: &impl Abort, alloc: Global, name: &str, text: &str) -> Option<usize> {
    match name {
        "NumericString" => place_of(rt, NumericString::try_from_text(alloc, text)),
        "PrintableString" => place_of(rt, PrintableString::try_from_text(alloc, text)),
        "VisibleString" => place_of(rt, VisibleString::try_from_text(alloc, text)),
        "IA5String" => place_of(rt, Ia5String::try_from_text(alloc, text)),
        "GeneralString" => place_of(rt, GeneralString::try_from_text(alloc, text)),
        "GraphicString" => place_of(rt, GraphicString::try_from_text(alloc, text)),
        "BMPString" => place_of(rt, BmpString::try_from_text(alloc, text)),
        _ => place_of(rt, UniversalString::try_from_text(alloc, text)),
    }
}

/// Each type takes the characters of its alphabet, and names the place of the first other one.
#[test]
fn alphabets(rt: HostRuntime) {
    // Each row names its type, so one loop tries all of them.
    for row in CASES.iter() {
        let place = place_outside(&rt, rt.alloc(), row.0, row.1);
        assert_of(&rt, place == row.2, row.0);
    }
}

/// Returns the NumericString of the text.
fn numeric(rt: &impl Abort, alloc: Global, text: &str) -> NumericString {
    NumericString::try_from_text(alloc, text).expect(rt, text)
}

/// A string has the content that it was made of, and is equal to one of the same content.
#[test]
fn contents_of_texts(rt: HostRuntime) {
    let alloc = rt.alloc();
    let string = numeric(&rt, alloc, "1 2");
    assert_text(&rt, string.as_str(), "1 2");
    let same = NumericString::from_string(owned(&rt, alloc, "1 2"));
    assert_true(&rt, is_equal(&string, same.expect(&rt, "1 2")));
    assert_true(&rt, !is_equal(&string, numeric(&rt, alloc, "1 3")));
}

/// `é` is one unit.
#[test]
fn contents_of_units(rt: HostRuntime) {
    let alloc = rt.alloc();
    let string = BmpString::try_from_text(alloc, "é").expect(&rt, "é");
    assert_same(&rt, string.units(), [0xE9].as_slice());
    let units = Vec::from_array(alloc, [0xE9]).expect(&rt, MEMORY);
    assert_true(&rt, is_equal(&string, BmpString::from_units(units)));
}

/// Counts the units of a long text.
const COUNT: usize = 10_000;

/// Is the place of a unit in the second of three pieces of 4,096 units.
const MIDDLE: usize = 4_999;

/// Returns a long BMPString of ASCII, but for this unit in the middle.
fn long_string(rt: &impl Abort, alloc: Global, middle: u16) -> BmpString {
    let mut units = Vec::new(alloc);
    for place in 0..COUNT {
        let unit = if place == MIDDLE { middle } else { 0x61 };
        units.push(unit).expect(rt, MEMORY);
    }
    BmpString::from_units(units)
}

/// Returns the text of `long_string` where the unit in the middle is `é`.
fn long_text(rt: &impl Abort, alloc: Global) -> String {
    let mut text = String::new(alloc);
    for place in 0..COUNT {
        let character = if place == MIDDLE { 'é' } else { 'a' };
        text.push(character).expect(rt, MEMORY);
    }
    text
}

/// The text of many units is made in pieces of 4,096 units. Here the second of three pieces has a
/// surrogate or `é`, and all other units are ASCII.
#[test]
fn texts_of_many_units(rt: HostRuntime) {
    let alloc = rt.alloc();
    let text = long_string(&rt, alloc, 0xE9).to_text(alloc);
    let text = text.expect(&rt, "no text");
    assert_text(&rt, text.as_str(), long_text(&rt, alloc).as_str());
    match long_string(&rt, alloc, 0xD800).to_text(alloc) {
        Err(UnitFault::Surrogate { place }) => assert_same(&rt, place, MIDDLE),
        _ => rt.panic("no surrogate"),
    }
}

/// `é` is two octets in UTF-8.
#[test]
fn contents_of_octets(rt: HostRuntime) {
    let string = GraphicString::from_string(owned(&rt, rt.alloc(), "é"));
    let string = string.expect(&rt, "é");
    assert_octets(&rt, string.octets(), b"\xC3\xA9".as_slice());
}

/// Octets past ASCII are in the set of GraphicString, and control characters are not.
#[test]
fn octets_of_graphic_strings(rt: HostRuntime) {
    let alloc = rt.alloc();
    let past = GraphicString::from_octets(octets(&rt, alloc, &[0xFF]));
    let past = past.expect(&rt, "the octet 0xFF is refused");
    assert_octets(&rt, past.octets(), b"\xFF".as_slice());
    let control = GraphicString::from_octets(octets(&rt, alloc, &[0x20, 0x1F]));
    assert_true(&rt, control.is_none());
}

/// Two sets have every octet.
#[test]
fn octets_of_other_strings(rt: HostRuntime) {
    let alloc = rt.alloc();
    let general = GeneralString::from_octets(octets(&rt, alloc, &[0, 0xFF]));
    assert_octets(&rt, general.octets(), b"\0\xFF".as_slice());
    let teletex = TeletexString::from_octets(octets(&rt, alloc, &[0, 0xFF]));
    assert_octets(&rt, teletex.octets(), b"\0\xFF".as_slice());
}

/// The texts of faults of characters are exact, which no contract states.
#[test]
fn texts_of_string_faults(rt: HostRuntime) {
    let fault = StringFault::Alphabet { place: 16 };
    let text = "character outside the alphabet at place 16";
    assert_printed(&rt, rt.alloc(), fault, text);
    assert_printed(&rt, rt.alloc(), StringFault::OutOfMemory, "Out of memory");
}

/// The texts of faults of units are exact, which no contract states.
#[test]
fn texts_of_unit_faults(rt: HostRuntime) {
    let fault = UnitFault::Surrogate { place: 16 };
    assert_printed(&rt, rt.alloc(), fault, "surrogate at place 16");
    assert_printed(&rt, rt.alloc(), UnitFault::OutOfMemory, "Out of memory");
}
