//! Defines `EncodeError`: why a value is not encoded, and by which codec. Unlike an error of
//! decoding it names no fields, so contracts compare it as it is.
ghost use Rattle.std.specs.Prelude.{◌≡◌, MatchResult, Some, false, pos, true};
ghost use Rattle.asn_core.specs.Bounds.{is_admitted};
ghost use Rattle.asn_fault.specs.Texts.{encode_kind_text, encode_error_text};
ghost use Rattle.asn_fault.specs.EncodeCause.{encode_cause, encode_error, is_encode_out_of_memory};

use crate::print::{write_before, write_two};
use crate::{CodecEncodeError, PermittedAlphabetError};
use asn_core::{Bounded, Codec, Size, WholeNumber};
use std::error::Error;
use std::fmt;

/// States why a value is not encoded.
#[derive(Debug, Drop)]
pub enum EncodeErrorKind {
    /// The bit string has more unused bits than an octet can state.
    FailedBitStringUnusedBitsToU8 {
        /// Counts the unused bits.
        bits: usize,
    },
    /// The length of the value is not one that its type has.
    InvalidLength {
        /// Holds the length of the value.
        length: usize,
        /// Holds the bounds of the lengths that the type has.
        expected: Bounded<usize>,
    },
    /// The length of the value is greater than the platform can count.
    LengthExceedsPlatformSize,
    /// The value has more octets than are kept for it.
    MoreBytesThanExpected {
        /// Counts the octets of the value.
        value: usize,
        /// Counts the octets that are kept.
        expected: usize,
    },
    /// The cause has words of its own, such as that the library does not have the codec.
    Custom {
        /// Holds the words.
        msg: String,
    },
    /// The kind is one that a single set of encoding rules has.
    CodecSpecific {
        /// Holds the kind, and names the encoding rules that have it.
        inner: CodecEncodeError,
    },
    /// The string has a character that the permitted alphabet of its type lacks.
    AlphabetConstraintNotSatisfied {
        /// Names the character.
        reason: PermittedAlphabetError,
    },
    /// The value's size is not one that its type has.
    SizeConstraintNotSatisfied {
        /// Holds the size of the value.
        size: usize,
        /// Holds the bounds of the sizes that the type has.
        expected: Bounded<usize>,
    },
    /// The number is not one that its type has.
    ValueConstraintNotSatisfied {
        /// Holds the number.
        value: WholeNumber,
        /// Holds the bounds of the numbers that the type has.
        expected: Bounded<i128>,
    },
    /// The number is not one of another integer type.
    IntegerTypeConversionFailed {
        /// States why.
        msg: String,
    },
    /// The value of an open type is not encoded.
    OpaqueConversionFailed {
        /// States why.
        msg: String,
    },
    /// The tag of the value is that of no alternative of its CHOICE type.
    VariantNotInChoice,
    /// A REAL is to be encoded, which neither notation of this library does.
    RealNotSuppored,
    /// Memory ran out.
    OutOfMemory,
}

/// Reports that a value is not encoded: why, and by which encoding rules.
#[derive(Debug, Drop)]
pub struct EncodeError {
    /// States why the value is not encoded.
    pub kind: EncodeErrorKind,
    /// Names the encoding rules by which it is not.
    pub codec: Codec,
}

/// Makes errors, one constructor for each kind.
impl EncodeError {
    /// Returns the error of this kind.
    pub fn from_kind(kind: EncodeErrorKind, codec: Codec) -> EncodeError
        ensures { result ≡ encode_error kind codec }
    {
        EncodeError { kind, codec }
    }

    /// Returns the error that a string has a character that the permitted alphabet of its type
    /// lacks.
    pub fn alphabet_constraint_not_satisfied(
        reason: PermittedAlphabetError,
        codec: Codec,
    ) -> EncodeError
        ensures { result ≡ encode_error
            (EncodeErrorKind.AlphabetConstraintNotSatisfied reason) codec }
    {
        let kind = EncodeErrorKind::AlphabetConstraintNotSatisfied { reason };
        EncodeError { kind, codec }
    }

    /// Returns the error that the size of a value is none of `expected`, of which the bounds are
    /// kept.
    pub fn size_constraint_not_satisfied(size: usize, expected: &Size, codec: Codec) -> EncodeError
        ensures { result ≡ encode_error
            (EncodeErrorKind.SizeConstraintNotSatisfied size expected.now.bounds) codec }
    {
        let kind = EncodeErrorKind::SizeConstraintNotSatisfied {
            size,
            expected: expected.bounds,
        };
        EncodeError { kind, codec }
    }

    /// Returns the error that a number is outside `expected`, the bounds of its type.
    pub fn value_constraint_not_satisfied(
        value: WholeNumber,
        expected: &Bounded<i128>,
        codec: Codec,
    ) -> EncodeError
        ensures { result ≡ encode_error
            (EncodeErrorKind.ValueConstraintNotSatisfied value expected.now) codec }
    {
        let kind = EncodeErrorKind::ValueConstraintNotSatisfied {
            value,
            expected: *expected,
        };
        EncodeError { kind, codec }
    }

    /// Checks that the length of a value is one that its type has.
    ///
    /// # Errors
    ///
    /// `InvalidLength`, exactly where `expected` does not admit the length.
    pub fn check_length(length: usize, expected: &Size, codec: Codec) -> Result<(), EncodeError>
        ensures { MatchResult result
            (λ _. is_admitted pos expected.now.bounds (pos length) ≡ true)
            (λ error. (is_admitted pos expected.now.bounds (pos length) ≡ false)
            × (error ≡ encode_error
            (EncodeErrorKind.InvalidLength length expected.now.bounds) codec)) }
    {
        if expected.contains(&length) {
            return Ok(());
        }
        let kind = EncodeErrorKind::InvalidLength {
            length,
            expected: expected.bounds,
        };
        Err(EncodeError { kind, codec })
    }

    /// Returns the error that the length of a value is greater than the platform can count.
    pub fn length_exceeds_platform_size(codec: Codec) -> EncodeError
        ensures { result ≡ encode_error EncodeErrorKind.LengthExceedsPlatformSize codec }
    {
        let kind = EncodeErrorKind::LengthExceedsPlatformSize;
        EncodeError { kind, codec }
    }

    /// Returns the error that a number is not one of another integer type, for the reason in
    /// `msg`.
    pub fn integer_type_conversion_failed(msg: String, codec: Codec) -> EncodeError
        ensures { result ≡ encode_error (EncodeErrorKind.IntegerTypeConversionFailed msg) codec }
    {
        let kind = EncodeErrorKind::IntegerTypeConversionFailed { msg };
        EncodeError { kind, codec }
    }

    /// Returns the error that the value of an open type is not encoded, for the reason in `msg`.
    pub fn opaque_conversion_failed(msg: String, codec: Codec) -> EncodeError
        ensures { result ≡ encode_error (EncodeErrorKind.OpaqueConversionFailed msg) codec }
    {
        let kind = EncodeErrorKind::OpaqueConversionFailed { msg };
        EncodeError { kind, codec }
    }

    /// Returns the error that the tag of a value is that of no alternative of its CHOICE type.
    pub fn variant_not_in_choice(codec: Codec) -> EncodeError
        ensures { result ≡ encode_error EncodeErrorKind.VariantNotInChoice codec }
    {
        let kind = EncodeErrorKind::VariantNotInChoice;
        EncodeError { kind, codec }
    }

    /// Returns the error that a REAL is to be encoded.
    pub fn real_not_supported(codec: Codec) -> EncodeError
        ensures { result ≡ encode_error EncodeErrorKind.RealNotSuppored codec }
    {
        let kind = EncodeErrorKind::RealNotSuppored;
        EncodeError { kind, codec }
    }

    /// Returns an error in words of its own.
    pub fn custom(msg: String, codec: Codec) -> EncodeError
        ensures { result ≡ encode_error (EncodeErrorKind.Custom msg) codec }
    {
        let kind = EncodeErrorKind::Custom { msg };
        EncodeError { kind, codec }
    }

    /// Returns the error that memory ran out.
    pub fn out_of_memory(codec: Codec) -> EncodeError
        ensures { result ≡ encode_error EncodeErrorKind.OutOfMemory codec }
    {
        let kind = EncodeErrorKind::OutOfMemory;
        EncodeError { kind, codec }
    }

    /// Returns whether memory ran out.
    pub fn is_out_of_memory(&self) -> bool
        ensures { result ≡ is_encode_out_of_memory (encode_cause self.now.kind) }
    {
        match &self.kind {
            EncodeErrorKind::OutOfMemory => true,
            _ => false,
        }
    }
}

/// Prints why the value is not encoded.
impl fmt::Display for EncodeErrorKind {
    ghost output = { λ kind. Some (encode_kind_text kind) };

    fn fmt<W: fmt::Write>(&self, f: &mut fmt::Formatter<W>) -> fmt::Result {
        match self {
            EncodeErrorKind::FailedBitStringUnusedBitsToU8 { bits } => {
                write_before(f, "Failed to convert BIT STRING unused bits to u8: ", bits)
            }
            EncodeErrorKind::InvalidLength { length, expected } => {
                write_two(
                    f,
                    "Invalid length, expected: ",
                    expected,
                    "; actual: ",
                    length,
                )
            }
            EncodeErrorKind::LengthExceedsPlatformSize => {
                f.write_str("Invalid length, exceeds platform maximum size usize::MAX")
            }
            EncodeErrorKind::MoreBytesThanExpected { value, expected } => write_two(
                f,
                "The provided value does not fit in the reserved octets ",
                expected,
                "; actual: ",
                value,
            ),
            EncodeErrorKind::Custom { msg } => write_before(f, "Custom error: ", msg),
            EncodeErrorKind::CodecSpecific { inner } => inner.fmt(f),
            EncodeErrorKind::AlphabetConstraintNotSatisfied { reason } => {
                write_before(f, "Alphabet constraint not satisfied: ", reason)
            }
            EncodeErrorKind::SizeConstraintNotSatisfied { size, expected } => write_two(
                f,
                "Size constraint not satisfied: expected: ",
                expected,
                "; actual: ",
                size,
            ),
            EncodeErrorKind::ValueConstraintNotSatisfied { value, expected } => write_two(
                f,
                "Value constraint not satisfied: expected: ",
                expected,
                "; actual: ",
                value,
            ),
            EncodeErrorKind::IntegerTypeConversionFailed { msg } => {
                write_before(f, "Failed to cast integer to another integer type: ", msg)
            }
            EncodeErrorKind::OpaqueConversionFailed { msg } => {
                write_before(f, "Conversion to opaque type failed: ", msg)
            }
            EncodeErrorKind::VariantNotInChoice => {
                f.write_str("Selected Variant not found in Choice")
            }
            EncodeErrorKind::RealNotSuppored => f.write_str("Encoder doesn't support `REAL` type"),
            EncodeErrorKind::OutOfMemory => f.write_str("Out of memory"),
        }
    }
}

/// Has no source: the kind of one set of encoding rules is printed as it is.
impl Error for EncodeErrorKind {}

/// Prints the kind, and then the codec in parentheses.
impl fmt::Display for EncodeError {
    ghost output = { λ error. Some (encode_error_text error) };

    fn fmt<W: fmt::Write>(&self, f: &mut fmt::Formatter<W>) -> fmt::Result {
        let kind = &self.kind;
        let codec = self.codec;
        write!(f, "{kind} (Codec: {codec})")
    }
}

/// Has no source: its kind is printed as part of it.
impl Error for EncodeError {}
