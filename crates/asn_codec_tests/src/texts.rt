//! Tests values that have a text in neither notation, and calls that always refuse.
use crate::checks::{DECODER, MEMORY, assert_given, assert_refused, let_go};
use asn_civil::{CivilDate, CivilGeneralizedTime, CivilUtcTime};
use asn_core::{Constraints, Identifier, Tag};
use asn_fault::{DecodeError, EncodeError};
use asn_strings::{BmpString, GeneralString, GraphicString, TeletexString};
use asn_times::{Date, GeneralizedTime, UtcTime};
use asn_traits::{Decoder, Encode, Encoder};
use avn_rules::avn;
use avn_value::AvnValue;
use jer_rules::jer;
use jiff::civil;
use serde_json::Value;
use std::alloc::Global;
use std::fmt::Display;
use std::process::Abort;

/// Checks that neither notation writes the value, by the texts of the errors.
fn assert_unwritten<T: Encode>(
    rt: &impl Abort,
    alloc: Global,
    value: &T,
    in_jer: &str,
    in_avn: &str,
) {
    assert_refused(rt, alloc, jer::encode(alloc, value), in_jer);
    assert_refused(rt, alloc, avn::encode(alloc, value), in_avn);
}

/// Is the error of AVN for what isn't Unicode, as that of the crate `rasn`.
const NO_UTF8: &str = "AVN encoding error: Error in AVN encoder: Invalid UTF-8 (Codec: AVN)";

/// Lists octets that aren't UTF-8, each with the error of JER, which says how many of them come
/// before the first that begins no character.
const OCTETS: [(&'static [u8], &'static str); 3] = [
    (
        b"\xFF",
        "JER encoding error: Invalid character: after 0 (Codec: JER)",
    ),
    (
        b"ab\xC3",
        "JER encoding error: Invalid character: after 2 (Codec: JER)",
    ),
    (
        b"\xC3\xA9\xED\xA0\x80",
        "JER encoding error: Invalid character: after 2 (Codec: JER)",
    ),
];

/// Checks that a GeneralString of these octets is written in neither notation.
fn assert_general_unwritten(rt: &impl Abort, alloc: Global, octets: &[u8], in_jer: &str) {
    let octets = Vec::from_slice(alloc, octets).expect(rt, MEMORY);
    let value = GeneralString::from_octets(octets);
    assert_unwritten(rt, alloc, &value, in_jer, NO_UTF8);
}

/// Checks that a GraphicString of these octets is written in neither notation.
fn assert_graphic_unwritten(rt: &impl Abort, alloc: Global, octets: &[u8], in_jer: &str) {
    let octets = Vec::from_slice(alloc, octets).expect(rt, MEMORY);
    let value = GraphicString::from_octets(octets).expect(rt, "no GraphicString");
    assert_unwritten(rt, alloc, &value, in_jer, NO_UTF8);
}

/// Strings of octets that aren't UTF-8 are written in neither notation.
#[test]
fn octets_that_are_not_utf8_are_not_written(rt: HostRuntime) {
    for row in OCTETS.iter() {
        assert_general_unwritten(&rt, rt.alloc(), row.0, row.1);
        assert_graphic_unwritten(&rt, rt.alloc(), row.0, row.1);
    }
}

/// Returns the BMPString of these units.
fn bmp(rt: &impl Abort, alloc: Global, units: &[u16]) -> BmpString {
    BmpString::from_units(Vec::from_slice(alloc, units).expect(rt, MEMORY))
}

/// A pair of surrogates is no character of a BMPString, and is written in neither notation.
#[test]
fn surrogates_are_not_written(rt: HostRuntime) {
    let pair = bmp(&rt, rt.alloc(), &[0x61, 0xE9, 0xD83D, 0xDE00]);
    let after = "JER encoding error: Invalid character: after 2 (Codec: JER)";
    assert_unwritten(&rt, rt.alloc(), &pair, after, NO_UTF8);
}

/// The units next to the surrogates, and the last one, are written.
#[test]
fn units_beside_the_surrogates_are_written(rt: HostRuntime) {
    let highest = bmp(&rt, rt.alloc(), &[0xD7FF, 0xE000, 0xFFFF]);
    let text = avn::encode(rt.alloc(), &highest);
    assert_given(&rt, text, "\"\u{D7FF}\u{E000}\u{FFFF}\"");
}

/// Is the error of JER for a year that the text of a time has no room for.
const YEARS_IN_JER: &str = "Custom error: time outside the years of its text (Codec: JER)";

/// Is the error of AVN for such a year.
const YEARS_IN_AVN: &str = "Custom error: time outside the years of its text (Codec: AVN)";

/// A date before the year 0 is written in neither notation.
#[test]
fn dates_outside_the_years_of_their_text_are_not_written(rt: HostRuntime) {
    let day = civil::Date::new(-1, 12, 31).expect(&rt, "no date");
    let day = Date::new(day);
    assert_unwritten(&rt, rt.alloc(), &day, YEARS_IN_JER, YEARS_IN_AVN);
}

/// Returns the last second of this year.
fn last_second(rt: &impl Abort, year: i16) -> civil::DateTime {
    civil::DateTime::new(year, 12, 31, 23, 59, 59, 0).expect(rt, "no time")
}

/// A GeneralizedTime before the year 0, or a UTCTime before 1950, is written in neither notation.
#[test]
fn times_outside_the_years_of_their_text_are_not_written(rt: HostRuntime) {
    let moment = GeneralizedTime::new(last_second(&rt, -1));
    assert_unwritten(&rt, rt.alloc(), &moment, YEARS_IN_JER, YEARS_IN_AVN);
    let early = UtcTime::new(last_second(&rt, 1949)).expect(&rt, "no UTCTime");
    assert_unwritten(&rt, rt.alloc(), &early, YEARS_IN_JER, YEARS_IN_AVN);
}

/// Writes a TeletexString, or a REAL, which are always refused.
fn write_refused<E: Encoder>(
    encoder: &mut E,
    string: &TeletexString,
    real: bool,
) -> Result<(), EncodeError> {
    if real {
        encoder.encode_real(Tag::REAL, &Constraints::NONE, Identifier::EMPTY)
    } else {
        encoder.encode_teletex_string(
            Tag::TELETEX_STRING,
            &Constraints::NONE,
            string,
            Identifier::EMPTY,
        )
    }
}

/// Reads a TeletexString, or a REAL, which are always refused.
fn read_refused<D: Decoder>(decoder: &mut D, real: bool) -> Result<(), DecodeError> {
    if real {
        decoder.decode_real(Tag::REAL, &Constraints::NONE)
    } else {
        match decoder.decode_teletex_string(Tag::TELETEX_STRING, &Constraints::NONE) {
            Ok(_) => Ok(()),
            Err(error) => Err(error),
        }
    }
}

/// Lists whether it is a REAL, and the errors of writing and of reading it, without the codec.
const REFUSED: [(bool, &'static str, &'static str); 2] = [
    (
        false,
        "Custom error: TeletexString is not supported",
        "Custom error: TeletexString is not supported",
    ),
    (
        true,
        "Encoder doesn't support `REAL` type",
        "Decoder doesn't support `REAL` type",
    ),
];

/// Writes in JER what is always refused.
fn write_refused_in_jer(
    alloc: Global,
    string: &TeletexString,
    real: bool,
) -> Result<(), EncodeError> {
    let mut encoder = jer::enc::Encoder::new(alloc);
    let written = write_refused(&mut encoder, string, real);
    let_go(encoder);
    written
}

/// Writes in AVN what is always refused.
fn write_refused_in_avn(
    alloc: Global,
    string: &TeletexString,
    real: bool,
) -> Result<(), EncodeError> {
    let mut encoder = avn::enc::Encoder::new(alloc);
    let written = write_refused(&mut encoder, string, real);
    let_go(encoder);
    written
}

/// Checks that there is an error, which prints this text and the name of the codec.
fn assert_refused_by<E: Display + Drop>(
    rt: &impl Abort,
    alloc: Global,
    answer: Result<(), E>,
    text: &str,
    codec: &str,
) {
    let want = format!(in alloc; "{text} (Codec: {codec})").expect(rt, MEMORY);
    assert_refused(rt, alloc, answer, want.as_str());
}

/// Returns a TeletexString.
fn teletex(rt: &impl Abort, alloc: Global) -> TeletexString {
    TeletexString::from_octets(Vec::from_slice(alloc, &[0x61]).expect(rt, MEMORY))
}

/// Neither notation writes a TeletexString or a REAL.
#[test]
fn teletex_strings_and_reals_are_never_written(rt: HostRuntime) {
    let alloc = rt.alloc();
    let string = teletex(&rt, alloc);
    for row in REFUSED.iter() {
        let in_jer = write_refused_in_jer(alloc, &string, row.0);
        assert_refused_by(&rt, alloc, in_jer, row.1, "JER");
        let in_avn = write_refused_in_avn(alloc, &string, row.0);
        assert_refused_by(&rt, alloc, in_avn, row.1, "AVN");
    }
}

/// Checks that a TeletexString, or a REAL, isn't read in JER.
fn assert_unread_in_jer(rt: &impl Abort, alloc: Global, real: bool, text: &str) {
    let mut decoder = jer::de::Decoder::from_value(alloc, Value::Null).expect(rt, DECODER);
    let read = read_refused(&mut decoder, real);
    let_go(decoder);
    assert_refused_by(rt, alloc, read, text, "JER");
}

/// Reads NULL, and then a TeletexString, or a REAL.
fn read_null_and_refused<D: Decoder>(decoder: &mut D, real: bool) -> Result<(), DecodeError> {
    match decoder.decode_null(Tag::NULL) {
        Ok(()) => read_refused(decoder, real),
        Err(error) => Err(error),
    }
}

/// Checks that a TeletexString, or a REAL, isn't read in AVN, where a value was read before.
fn assert_unread_in_avn(rt: &impl Abort, alloc: Global, real: bool, text: &str) {
    let mut decoder = avn::de::Decoder::from_value(alloc, AvnValue::Null).expect(rt, DECODER);
    let read = read_null_and_refused(&mut decoder, real);
    let_go(decoder);
    assert_refused_by(rt, alloc, read, text, "AVN");
}

/// Neither notation reads a TeletexString or a REAL.
#[test]
fn teletex_strings_and_reals_are_never_read(rt: HostRuntime) {
    for row in REFUSED.iter() {
        assert_unread_in_jer(&rt, rt.alloc(), row.0, row.2);
        assert_unread_in_avn(&rt, rt.alloc(), row.0, row.2);
    }
}
