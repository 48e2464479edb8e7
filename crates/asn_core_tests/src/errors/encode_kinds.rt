//! Prints the error of encoding of each kind that every codec has, made by its constructor where it
//! has one.
use crate::errors::checks::{assert_accepted, assert_printed, assert_refused, message};
use asn_core::{Bounded, Codec, Size, WholeNumber};
use asn_fault::{EncodeError, EncodeErrorKind, PermittedAlphabetError};

/// Lists the texts of the errors that `error` returns, by their places.
const TEXTS: [&str; 13] = [
    "Failed to convert BIT STRING unused bits to u8: 300 (Codec: BER)",
    "Invalid length, expected: 2..MAX; actual: 1 (Codec: OER)",
    "Invalid length, exceeds platform maximum size usize::MAX (Codec: UPER)",
    "The provided value does not fit in the reserved octets 2; actual: 3 (Codec: COER)",
    "Custom error: m (Codec: COER)",
    "Alphabet constraint not satisfied: Character 35 not found from the permitted list \
     (Codec: UPER)",
    "Size constraint not satisfied: expected: 2..MAX; actual: 1 (Codec: JER)",
    "Value constraint not satisfied: expected: 7; actual: 5 (Codec: OER)",
    "Failed to cast integer to another integer type: m (Codec: APER)",
    "Conversion to opaque type failed: m (Codec: BER)",
    "Selected Variant not found in Choice (Codec: AVN)",
    "Encoder doesn't support `REAL` type (Codec: JER)",
    "Out of memory (Codec: DER)",
];

/// A size of 2 at least.
const SIZE: Size = Size {
    bounds: Bounded::Range {
        start: Some(2),
        end: None,
    },
};

/// Returns the error at this place, of a kind on lengths and constraints.
fn bounds_error(place: usize) -> EncodeError {
    let size = SIZE;
    match place {
        0 => {
            let kind = EncodeErrorKind::FailedBitStringUnusedBitsToU8 { bits: 300 };
            EncodeError::from_kind(kind, Codec::Ber)
        }
        1 => {
            let kind = EncodeErrorKind::InvalidLength {
                length: 1,
                expected: size.bounds,
            };
            EncodeError::from_kind(kind, Codec::Oer)
        }
        2 => EncodeError::length_exceeds_platform_size(Codec::Uper),
        3 => {
            let kind = EncodeErrorKind::MoreBytesThanExpected {
                value: 3,
                expected: 2,
            };
            EncodeError::from_kind(kind, Codec::Coer)
        }
        5 => {
            let reason = PermittedAlphabetError::CharacterNotFound { character: 35 };
            EncodeError::alphabet_constraint_not_satisfied(reason, Codec::Uper)
        }
        6 => EncodeError::size_constraint_not_satisfied(1, &size, Codec::Jer),
        _ => {
            let value = WholeNumber {
                negative: false,
                magnitude: 5,
            };
            EncodeError::value_constraint_not_satisfied(value, &Bounded::Single(7), Codec::Oer)
        }
    }
}

/// Returns the error at this place of `TEXTS`, with `text` where it has a text.
fn error(text: String, place: usize) -> EncodeError {
    match place {
        4 => EncodeError::custom(text, Codec::Coer),
        0..=7 => bounds_error(place),
        8 => EncodeError::integer_type_conversion_failed(text, Codec::Aper),
        9 => EncodeError::opaque_conversion_failed(text, Codec::Ber),
        10 => EncodeError::variant_not_in_choice(Codec::Avn),
        11 => EncodeError::real_not_supported(Codec::Jer),
        _ => EncodeError::out_of_memory(Codec::Der),
    }
}

/// Each kind has its text, before the codec of the error.
#[test]
fn each_kind_of_encoding_has_its_text(rt: HostRuntime) {
    for (place, &want) in TEXTS.iter().enumerate() {
        let error = error(message(&rt, rt.alloc()), place);
        assert_printed(&rt, rt.alloc(), error, want);
    }
}

/// A length is refused exactly where it is none of the sizes.
#[test]
fn lengths_are_checked(rt: HostRuntime) {
    let size = SIZE;
    assert_accepted(&rt, EncodeError::check_length(2, &size, Codec::Oer));
    assert_refused(
        &rt,
        rt.alloc(),
        EncodeError::check_length(1, &size, Codec::Oer),
        "Invalid length, expected: 2..MAX; actual: 1 (Codec: OER)",
    );
}
