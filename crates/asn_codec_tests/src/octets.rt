//! Encodes and decodes OCTET STRING in both notations. The forms are those of X.697 and X.680,
//! section 23.
use crate::checks::{MEMORY, assert_given, assert_refused, assert_same};
use asn_core::OctetString;
use asn_fault::DecodeError;
use avn_rules::avn;
use jer_rules::jer;
use std::alloc::Global;
use std::process::Abort;

/// Checks that the text is decoded to the octets 01 and FF.
fn assert_read(rt: &impl Abort, alloc: Global, is_json: bool, text: &str) {
    let value = read_octets(alloc, is_json, text).expect(rt, text);
    assert_same(rt, value.as_bytes(), [0x01, 0xFF].as_slice());
}

/// Returns the octets 01 and FF: 01 shows that leading zeros stay, and FF the case of letters.
fn octets(rt: &impl Abort, alloc: Global) -> OctetString {
    OctetString::from_vec(Vec::from_slice(alloc, &[0x01, 0xFF]).expect(rt, MEMORY))
}

/// Octets are written in capitals and without spaces. They are read in either case, and in AVN
/// with white space between digits.
/// The texts are those of X.697 and of X.680, section 23.
#[test]
fn octets_are_written_in_capitals_and_read_in_either_case(rt: HostRuntime) {
    let alloc = rt.alloc();
    let value = octets(&rt, alloc);
    assert_given(&rt, jer::encode(alloc, &value), "\"01FF\"");
    assert_given(&rt, avn::encode(alloc, &value), "'01FF'H");
    assert_read(&rt, alloc, true, "\"01fF\"");
    // X.680, section 12, admits white space between the digits.
    assert_read(&rt, alloc, false, "' 01 fF 'H");
}

/// Lists texts that are no octets, each with the error: whether the text is JSON comes first. AVN
/// has octets by their form, so only another kind of value can be wrong there. In JSON a string may
/// be wrong too: `g` is no hexadecimal digit. The errors' texts are those of the crate `rasn`.
const REFUSED: [(bool, &'static str, &'static str); 3] = [
    (
        true,
        "true",
        "JER decoding error: Found mismatching JSON value. Expected type: \
         hex string. Found value: true (Codec: JER)",
    ),
    (
        true,
        "\"0g\"",
        "JER decoding error: Found invalid character in octet string (Codec: JER)",
    ),
    (
        false,
        "TRUE",
        "AVN decoding error: AVN type mismatch: expected octet string \
         ('...'H), found TRUE (Codec: AVN)",
    ),
];

/// Decodes octets from a text of either notation.
fn read_octets(alloc: Global, is_json: bool, text: &str) -> Result<OctetString, DecodeError> {
    if is_json {
        jer::decode(alloc, text)
    } else {
        avn::decode(alloc, text)
    }
}

/// A value of another kind is a type mismatch in both notations, and a string that is no pairs of
/// hexadecimal digits is an error of its own in JER.
#[test]
fn what_is_no_octets_is_refused(rt: HostRuntime) {
    for row in REFUSED.iter() {
        let read = read_octets(rt.alloc(), row.0, row.1);
        assert_refused(&rt, rt.alloc(), read, row.2);
    }
}
