//! Prints the kinds that a single set of encoding rules has, each as an error of its codec.
use crate::errors::checks::{MEMORY, assert_accepted, assert_printed, assert_refused, message};
use asn_core::{Tag, WholeNumber};
use asn_fault::{
    AvnDecodeErrorKind, AvnEncodeErrorKind, BerDecodeErrorKind, BerEncodeErrorKind,
    CoerDecodeErrorKind, CoerEncodeErrorKind, DecodeError, DerDecodeErrorKind, DigitFault,
    EncodeError, JerDecodeErrorKind, JerEncodeErrorKind, OerDecodeErrorKind, Utf8Fault,
    XerDecodeErrorKind, XerEncodeErrorKind,
};
use std::alloc::Global;
use std::process::Abort;

/// Lists the texts of the kinds of BER, DER, OER and COER for decoding, by their places.
const OCTET_TEXTS: [&str; 18] = [
    "BER decoding error: Indefinite length encountered but not allowed (Codec: BER)",
    "BER decoding error: Invalid constructed identifier for ASN.1 value: not primitive \
     (Codec: BER)",
    "BER decoding error: Invalid date string: m (Codec: BER)",
    "BER decoding error: Invalid object identifier with missing or corrupt root nodes \
     (Codec: BER)",
    "BER decoding error: Expected UNIVERSAL 2 tag, actual tag: UNIVERSAL 1 (Codec: BER)",
    "BER decoding error: Missing end-of-contents octets after indefinite length contents \
     (Codec: BER)",
    "BER decoding error: Reserved length octet 0xFF encountered (Codec: BER)",
    "BER decoding error: End-of-contents octets encountered where a value was expected \
     (Codec: BER)",
    "BER decoding error: Object identifier arc exceeds the supported 32 bits (Codec: BER)",
    "BER decoding error: Tag number exceeds the supported 32 bits (Codec: BER)",
    "DER decoding error: Constructed encoding encountered but not allowed (Codec: DER)",
    "OER decoding error: Invalid tag class when decoding choice: actual 3 (Codec: OER)",
    "OER decoding error: Invalid tag number when decoding Choice: 70 (Codec: OER)",
    "OER decoding error: Tag not found from the variants of the platform when decoding Choice. \
     Tag: UNIVERSAL 5, extensible status: false (Codec: OER)",
    "OER decoding error: InvalidExtensionHeader (Codec: OER)",
    "OER decoding error: Invalid BitString: m (Codec: OER)",
    "OER decoding error: Invalid preamble: m (Codec: OER)",
    "COER decoding error: Invalid Canonical Octet Encoding, not encoded as the smallest possible \
     number of octets: m (Codec: COER)",
];

/// Returns the kind of BER at this place, with `text` where it has a text.
fn ber_kind(text: String, place: usize) -> BerDecodeErrorKind {
    match place {
        0 => BerDecodeErrorKind::IndefiniteLengthNotAllowed,
        1 => BerDecodeErrorKind::InvalidConstructedIdentifier,
        2 => BerDecodeErrorKind::InvalidDate { msg: text },
        3 => BerDecodeErrorKind::InvalidObjectIdentifier,
        4 => BerDecodeErrorKind::MismatchedTag {
            expected: Tag::INTEGER,
            actual: Tag::BOOL,
        },
        5 => BerDecodeErrorKind::MissingEndOfContents,
        6 => BerDecodeErrorKind::ReservedLengthOctet,
        7 => BerDecodeErrorKind::UnexpectedEndOfContents,
        8 => BerDecodeErrorKind::UnsupportedObjectIdentifierArc,
        _ => BerDecodeErrorKind::UnsupportedTagNumber,
    }
}

/// Returns the error at this place of `OCTET_TEXTS`, with `text` where it has a text.
fn octet_error(text: String, place: usize) -> DecodeError {
    match place {
        0..=9 => ber_kind(text, place).into(),
        10 => DerDecodeErrorKind::ConstructedEncodingNotAllowed.into(),
        11 => OerDecodeErrorKind::InvalidTagClassOnChoice { class: 3 }.into(),
        12 => OerDecodeErrorKind::invalid_tag_number_on_choice(70),
        13 => OerDecodeErrorKind::invalid_tag_variant_on_choice(Tag::NULL, false),
        14 => OerDecodeErrorKind::invalid_extension_header(text),
        15 => OerDecodeErrorKind::invalid_bit_string(text),
        16 => OerDecodeErrorKind::invalid_preamble(text),
        _ => CoerDecodeErrorKind::NotValidCanonicalEncoding { msg: text }.into(),
    }
}

/// Each kind has its text, after the name of its codec.
#[test]
fn kinds_of_rules_on_octets_have_their_texts(rt: HostRuntime) {
    for (place, &want) in OCTET_TEXTS.iter().enumerate() {
        let error = octet_error(message(&rt, rt.alloc()), place);
        assert_printed(&rt, rt.alloc(), error, want);
    }
}

/// A tag is refused exactly where it is another one than the expected one.
#[test]
fn tags_are_checked(rt: HostRuntime) {
    assert_accepted(&rt, BerDecodeErrorKind::assert_tag(Tag::BOOL, Tag::BOOL));
    assert_refused(
        &rt,
        rt.alloc(),
        BerDecodeErrorKind::assert_tag(Tag::INTEGER, Tag::BOOL),
        "BER decoding error: Expected UNIVERSAL 2 tag, actual tag: UNIVERSAL 1 (Codec: BER)",
    );
}

/// Lists the texts of the kinds of JER, AVN and XER for decoding, by their places.
const TEXT_TEXTS: [&str; 23] = [
    "JER decoding error: Unexpected end of input while decoding JER (Codec: JER)",
    "JER decoding error: Found mismatching JSON value. Expected type: null. \
     Found value: m (Codec: JER)",
    "JER decoding error: Found invalid byte in bit string: invalid digit (Codec: JER)",
    "JER decoding error: Found invalid character in octet string (Codec: JER)",
    "JER decoding error: Failed to construct OID from value m (Codec: JER)",
    "JER decoding error: Found invalid enumerated discriminant m (Codec: JER)",
    "AVN decoding error: Unexpected end of AVN input (Codec: AVN)",
    "AVN decoding error: AVN type mismatch: expected null, found m (Codec: AVN)",
    "AVN decoding error: Invalid hex string in AVN (Codec: AVN)",
    "AVN decoding error: Invalid binary string in AVN (Codec: AVN)",
    "AVN decoding error: Invalid OID in AVN: m (Codec: AVN)",
    "AVN decoding error: Invalid enumerated discriminant in AVN: m (Codec: AVN)",
    "AVN decoding error: Unexpected token in AVN: m (Codec: AVN)",
    "AVN decoding error: Unterminated string literal in AVN (Codec: AVN)",
    "AVN decoding error: Integer parse error in AVN: m (Codec: AVN)",
    "XER decoding error: Unexpected end of input while decoding XER (Codec: XER)",
    "XER decoding error: Found mismatching XML value. Expected type: null. Found value: m. \
     (Codec: XER)",
    "XER decoding error: Found invalid character in octet string (Codec: XER)",
    "XER decoding error: Encountered invalid value: null (Codec: XER)",
    "XER decoding error: Found invalid open type encoding: m (Codec: XER)",
    "XER decoding error: XML parser error: m (Codec: XER)",
    "XER decoding error: Error matching tag names: expected m, found  (Codec: XER)",
    "XER decoding error: Encoding violates ITU-T X.693 (02/2021): m (Codec: XER)",
];

/// Returns the kind of JER at this place, with `text` where it has a text.
fn jer_kind(text: String, place: usize) -> JerDecodeErrorKind {
    match place {
        0 => JerDecodeErrorKind::EndOfInput {},
        1 => JerDecodeErrorKind::TypeMismatch {
            needed: "null",
            found: text,
        },
        2 => JerDecodeErrorKind::InvalidJerBitstring {
            parse_int_err: DigitFault::InvalidDigit,
        },
        3 => JerDecodeErrorKind::InvalidJerOctetString {},
        4 => JerDecodeErrorKind::InvalidOIDString { value: text },
        _ => JerDecodeErrorKind::InvalidEnumDiscriminant { discriminant: text },
    }
}

/// Returns the kind of AVN at this place, with `text` where it has a text.
fn avn_kind(text: String, place: usize) -> AvnDecodeErrorKind {
    match place {
        6 => AvnDecodeErrorKind::AvnEndOfInput {},
        7 => AvnDecodeErrorKind::AvnTypeMismatch {
            needed: "null",
            found: text,
        },
        8 => AvnDecodeErrorKind::InvalidHexString,
        9 => AvnDecodeErrorKind::InvalidBinString,
        10 => AvnDecodeErrorKind::InvalidOid { value: text },
        11 => AvnDecodeErrorKind::AvnInvalidEnumDiscriminant { discriminant: text },
        12 => AvnDecodeErrorKind::UnexpectedToken { found: text },
        13 => AvnDecodeErrorKind::UnterminatedString,
        _ => AvnDecodeErrorKind::IntegerParseError { msg: text },
    }
}

/// Returns the kind of XER at this place, with `text` where it has a text.
fn xer_kind(alloc: Global, text: String, place: usize) -> XerDecodeErrorKind {
    match place {
        15 => XerDecodeErrorKind::EndOfXmlInput {},
        16 => XerDecodeErrorKind::XmlTypeMismatch {
            needed: "null",
            found: text,
        },
        17 => XerDecodeErrorKind::InvalidXerOctetstring {
            parse_int_err: DigitFault::Empty,
        },
        18 => XerDecodeErrorKind::InvalidInput { details: "null" },
        19 => XerDecodeErrorKind::InvalidOpenType { details: text },
        20 => XerDecodeErrorKind::XmlParser { details: text },
        21 => XerDecodeErrorKind::XmlTag {
            needed: text,
            found: String::new(alloc),
        },
        _ => XerDecodeErrorKind::SpecViolation { details: text },
    }
}

/// Returns the error at this place of `TEXT_TEXTS`, with `m` where it has a text.
fn text_error(rt: &impl Abort, alloc: Global, place: usize) -> DecodeError {
    let text = message(rt, alloc);
    match place {
        0..=5 => jer_kind(text, place).into(),
        6..=14 => avn_kind(text, place).into(),
        _ => xer_kind(alloc, text, place).into(),
    }
}

/// Each kind has its text, after the name of its codec.
#[test]
fn kinds_of_rules_on_texts_have_their_texts(rt: HostRuntime) {
    for (place, &want) in TEXT_TEXTS.iter().enumerate() {
        // The place of a text in the list is that of its error.
        let error = text_error(&rt, rt.alloc(), place);
        assert_printed(&rt, rt.alloc(), error, want);
    }
}

/// Lists the texts of the kinds for encoding, by their places.
const ENCODE_TEXTS: [&str; 16] = [
    "JER encoding error: JsonEncodingError (Codec: JER)",
    "JER encoding error: No encoded JSON root value found (Codec: JER)",
    "JER encoding error: Error in JSON encoder: m (Codec: JER)",
    "JER encoding error: Exceeds supported integer range -2^63..2^64 \
     (-9223372036854775809) (Codec: JER)",
    "JER encoding error: Exceeds supported real value range (Codec: JER)",
    "JER encoding error: Invalid character: after 3 (Codec: JER)",
    "AVN encoding error: No encoded AVN root value found (Codec: AVN)",
    "AVN encoding error: Error in AVN encoder: m (Codec: AVN)",
    "AVN encoding error: Exceeds supported real value range for AVN encoding (Codec: AVN)",
    "XER encoding error: XmlEncodingError (Codec: XER)",
    "XER encoding error: Failed to encode integer (Codec: XER)",
    "XER encoding error: Missing identifier for ASN.1 type (Codec: XER)",
    "COER encoding error: Provided data is too long to be encoded with COER (Codec: COER)",
    "COER encoding error: Provided integer exceeds limits of the constrained word sizes \
     (Codec: COER)",
    "BER encoding error: Cannot encode `ANY` types in `SET` fields (Codec: BER)",
    "BER encoding error: Invalid Object Identifier: must have at least two components and first \
     octet must be 0, 1 or 2. Provided: [3, 5] (Codec: BER)",
];

/// Returns the kind of JER's encoding at this place: the number is one below the least that JER
/// has, and three octets of the string are text.
fn jer_encode_kind(text: String, place: usize) -> JerEncodeErrorKind {
    match place {
        0 => JerEncodeErrorKind::JsonEncodingError { upstream: text },
        1 => JerEncodeErrorKind::NoRootValueFound,
        2 => JerEncodeErrorKind::JsonEncoder { msg: text },
        3 => JerEncodeErrorKind::ExceedsSupportedIntSize {
            value: WholeNumber {
                negative: true,
                magnitude: 9223372036854775809,
            },
        },
        4 => JerEncodeErrorKind::ExceedsSupportedRealRange,
        _ => JerEncodeErrorKind::InvalidCharacter {
            error: Utf8Fault { valid_up_to: 3 },
        },
    }
}

/// Returns the error at this place of `ENCODE_TEXTS`, with `m` where it has a text.
fn encode_error(rt: &impl Abort, alloc: Global, place: usize) -> EncodeError {
    let text = message(rt, alloc);
    match place {
        0..=5 => jer_encode_kind(text, place).into(),
        6 => AvnEncodeErrorKind::AvnNoRootValueFound.into(),
        7 => AvnEncodeErrorKind::AvnEncoder { msg: text }.into(),
        8 => AvnEncodeErrorKind::AvnExceedsSupportedRealRange.into(),
        9 => XerEncodeErrorKind::XmlEncodingError { upstream: text }.into(),
        10 => XerEncodeErrorKind::UnsupportedIntegerValue.into(),
        11 => XerEncodeErrorKind::MissingIdentifier.into(),
        12 => CoerEncodeErrorKind::TooLongValue { length: 70 }.into(),
        13 => CoerEncodeErrorKind::InvalidConstrainedIntegerOctetSize.into(),
        14 => BerEncodeErrorKind::AnyInSet.into(),
        _ => {
            // The first arc is none of an object identifier.
            let arcs = Vec::from_array(alloc, [3, 5]).expect(rt, MEMORY);
            BerEncodeErrorKind::invalid_object_identifier(arcs).into()
        }
    }
}

/// Each kind of encoding has its text, after the name of its codec.
#[test]
fn kinds_of_encoding_have_their_texts(rt: HostRuntime) {
    for (place, &want) in ENCODE_TEXTS.iter().enumerate() {
        // The place of a text in the list is that of its error.
        let error = encode_error(&rt, rt.alloc(), place);
        assert_printed(&rt, rt.alloc(), error, want);
    }
}

/// What is wrong with digits is printed in lower case.
#[test]
fn faults_of_digits(rt: HostRuntime) {
    let too_large = DigitFault::TooLarge;
    assert_printed(&rt, rt.alloc(), too_large, "too large");
    let empty = DigitFault::Empty;
    assert_printed(&rt, rt.alloc(), empty, "empty");
}
