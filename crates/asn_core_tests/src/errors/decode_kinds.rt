//! Prints the error of decoding of each kind that every codec has, made by its constructor where it
//! has one.
use crate::errors::checks::{MEMORY, assert_accepted, assert_printed, message};
use asn_core::{Bounded, Class, Codec, Tag, TagTree, Variants, WholeNumber};
use asn_fault::{DecodeError, DecodeErrorKind, Needed, PermittedAlphabetError};

/// Lists the texts of the errors that `error` returns, by their places.
const TEXTS: [&str; 36] = [
    "Error in Parser: m (Codec: JER)",
    "Decoder doesn't support `REAL` type (Codec: AVN)",
    "Exceeded maximum parse depth (Codec: AVN)",
    "Missing field `x` (Codec: OER)",
    "Actual integer larger than expected 8 bits (Codec: UPER)",
    "No valid choice for `Either` (Codec: JER)",
    "Failed to convert byte array into valid ASN.1 string. String type as tag: \
     UNIVERSAL 22 Error: m (Codec: JER)",
    "Custom error: m (Codec: XER)",
    "Out of memory (Codec: APER)",
    "Duplicate field for `x` (Codec: AVN)",
    "Unknown field with index 6 and tag UNIVERSAL 5 (Codec: DER)",
    "Attempted to decode extension on non-extensible type (Codec: OER)",
    "Alphabet constraint not satisfied Character 35 not found from the permitted list \
     (Codec: UPER)",
    "Size constraint not satisfied: expected: m; actual: Some(3) (Codec: APER)",
    "Size constraint not satisfied: expected: m; actual: None (Codec: APER)",
    "Value constraint not satisfied: expected: 0..3; actual: -5 (Codec: COER)",
    "Discriminant value -2 did not match any variant (Codec: BER)",
    "Enumeration index 4 did not match any variant. Extended list checked: true (Codec: UPER)",
    "Expected maximum of 9 items (Codec: APER)",
    "Length of the data exceeds platform address width: m (Codec: OER)",
    "Need more data to continue: Size(83) (Codec: BER)",
    "Need more data to continue: Unknown (Codec: BER)",
    "Unexpected EOF when decoding (Codec: CER)",
    "Invalid item number in Sequence: expected: 2; actual: 3 (Codec: BER)",
    "Failed to cast integer to another integer type: m  (Codec: UPER)",
    "Invalid real encoding (Codec: BER)",
    "BitString contains an invalid amount of unused bits: 9 (Codec: BER)",
    "Bool value is not `0` or `0xFF` as canonical requires. Actual: 7 (Codec: DER)",
    "Length of Length cannot be zero (Codec: OER)",
    "Expected 2 bytes, actual length was 3 bytes (Codec: OER)",
    "Expected class: CONTEXT, value: 4 in sequence or set Missing tag class or value in \
     sequence or set (Codec: BER)",
    "Integer range larger than possible to address on this platform. needed: 128 present: 64 \
     (Codec: UPER)",
    "Extension with class `UNIVERSAL` and tag `1` required, but not present (Codec: UPER)",
    "Failed to convert byte array into valid fixed-sized ASN.1 string. String type as tag: \
     UNIVERSAL 22, actual: 2, expected: 3 (Codec: UPER)",
    "Unexpected extra data found: length `5` bytes (Codec: DER)",
    "No input was provided where expected in the given SEQUENCE or INTEGER type (Codec: OER)",
];

/// Returns the error at this place, of a kind that the text notations have or that is of fields.
fn text_error(text: String, place: usize) -> DecodeError {
    match place {
        0 => DecodeError::parser_fail(text, Codec::Jer),
        1 => DecodeError::real_not_supported(Codec::Avn),
        2 => DecodeError::from_kind(DecodeErrorKind::ExceedsMaxParseDepth, Codec::Avn),
        3 => DecodeError::missing_field("x", Codec::Oer),
        4 => DecodeError::integer_overflow(8, Codec::Uper),
        5 => DecodeError::no_valid_choice("Either", Codec::Jer),
        6 => DecodeError::string_conversion_failed(Tag::IA5_STRING, text, Codec::Jer),
        7 => DecodeError::custom(text, Codec::Xer),
        8 => DecodeError::out_of_memory(Codec::Aper),
        9 => DecodeError::duplicate_field("x", Codec::Avn),
        10 => DecodeError::unknown_field(6, Tag::NULL, Codec::Der),
        _ => DecodeError::type_not_extensible(Codec::Oer),
    }
}

/// Returns the error at this place, of a kind on constraints, numbers and lengths.
fn bounds_error(text: String, place: usize) -> DecodeError {
    match place {
        12 => {
            let reason = PermittedAlphabetError::CharacterNotFound { character: 35 };
            DecodeError::permitted_alphabet_error(reason, Codec::Uper)
        }
        13 => DecodeError::size_constraint_not_satisfied(Some(3), text, Codec::Aper),
        14 => DecodeError::size_constraint_not_satisfied(None, text, Codec::Aper),
        15 => {
            let value = WholeNumber {
                negative: true,
                magnitude: 5,
            };
            DecodeError::value_constraint_not_satisfied(value, Bounded::new(0, 3), Codec::Coer)
        }
        16 => DecodeError::discriminant_value_not_found(-2, Codec::Ber),
        17 => DecodeError::enumeration_index_not_found(4, true, Codec::Uper),
        18 => DecodeError::exceeds_max_length(9, Codec::Aper),
        19 => DecodeError::length_exceeds_platform_width(text, Codec::Oer),
        20 => DecodeError::incomplete(Needed::Size(83), Codec::Ber),
        21 => DecodeError::incomplete(Needed::Unknown, Codec::Ber),
        22 => DecodeError::from_kind(DecodeErrorKind::Eof, Codec::Cer),
        _ => DecodeError::incorrect_item_number_in_sequence(2, 3, Codec::Ber),
    }
}

/// Returns the error at this place, of a kind on octets.
fn octets_error(text: String, place: usize) -> DecodeError {
    match place {
        24 => DecodeError::integer_type_conversion_failed(text, Codec::Uper),
        25 => DecodeError::from_kind(DecodeErrorKind::InvalidRealEncoding, Codec::Ber),
        26 => DecodeError::invalid_bit_string(9, Codec::Ber),
        27 => DecodeError::from_kind(DecodeErrorKind::InvalidBool { value: 7 }, Codec::Der),
        28 => DecodeError::from_kind(DecodeErrorKind::ZeroLengthOfLength, Codec::Oer),
        29 => match DecodeError::assert_length(2, 3, Codec::Oer) {
            // The text of this kind is another one.
            Ok(()) => DecodeError::unexpected_empty_input(Codec::Oer),
            Err(error) => error,
        },
        30 => {
            let class = Class::Context;
            DecodeError::missing_tag_class_or_value_in_sequence_or_set(class, 4, Codec::Ber)
        }
        31 => DecodeError::range_exceeds_platform_width(128, 64, Codec::Uper),
        32 => DecodeError::required_extension_not_present(Tag::BOOL, Codec::Uper),
        33 => DecodeError::fixed_string_conversion_failed(Tag::IA5_STRING, 2, 3, Codec::Uper),
        34 => DecodeError::unexpected_extra_data(5, Codec::Der),
        _ => DecodeError::unexpected_empty_input(Codec::Oer),
    }
}

/// Returns the error at this place of `TEXTS`, with `text` where it has a text.
fn error(text: String, place: usize) -> DecodeError {
    match place {
        0..=11 => text_error(text, place),
        12..=23 => bounds_error(text, place),
        _ => octets_error(text, place),
    }
}

/// Each kind has its text, before the codec of the error.
#[test]
fn each_kind_of_decoding_has_its_text(rt: HostRuntime) {
    for (place, &want) in TEXTS.iter().enumerate() {
        let error = error(message(&rt, rt.alloc()), place);
        assert_printed(&rt, rt.alloc(), error, want);
    }
}

/// As many octets as are stated are accepted.
#[test]
fn a_length_that_is_stated(rt: HostRuntime) {
    assert_accepted(&rt, DecodeError::assert_length(2, 2, Codec::Oer));
}

/// Lists the tags of a CHOICE with one alternative.
const ALTERNATIVES: &[TagTree] = &[TagTree::Leaf(Tag::BOOL)];

/// An index that is that of no alternative is printed without the tags of the alternatives.
#[test]
fn an_index_of_no_alternative(rt: HostRuntime) {
    let variants = Variants::from_parts(rt.alloc(), ALTERNATIVES, None);
    let variants = variants.expect(&rt, MEMORY);
    let error = DecodeError::choice_index_not_found(7, variants, Codec::Uper);
    assert_printed(
        &rt,
        rt.alloc(),
        error,
        "Choice index 7 did not match any variant (Codec: UPER)",
    );
}

/// An error within another is printed in full, with its own codec.
#[test]
fn an_error_within_another_is_printed_in_full(rt: HostRuntime) {
    let alloc = rt.alloc();
    let eof = DecodeError::from_kind(DecodeErrorKind::Eof, Codec::Ber);
    let error = DecodeError::choice_index_exceeds_platform_width(alloc, 9, eof, Codec::Aper);
    assert_printed(
        &rt,
        alloc,
        error,
        "Choice index exceeds platform index width. Needed 9 bytes, present: Unexpected EOF \
         when decoding (Codec: BER) (Codec: APER)",
    );
}
