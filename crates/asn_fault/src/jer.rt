//! Defines the kinds of errors that the JSON Encoding Rules of X.697 (JER) alone have, with their
//! texts.
ghost use Rattle.std.specs.Prelude.{◌≡◌, Some};
ghost use Rattle.asn_fault.specs.Failure.{Cause, codec_cause};
ghost use Rattle.asn_fault.specs.Texts.{jer_decode_text, jer_encode_text};
ghost use Rattle.asn_core.specs.declared.codec.Codec.TheVariants.{Jer};

use crate::print::{write_around, write_before, write_two};
use crate::{CodecDecodeError, DigitFault, Utf8Fault};
use asn_core::WholeNumber;
use std::error::Error;
use std::fmt;

/// States why a JSON value is no value of a type in JER.
#[derive(Debug, Drop)]
pub enum JerDecodeErrorKind {
    /// A value is expected where none is: the slot is absent.
    EndOfInput {},
    /// The JSON value is of another kind than the type, or it is the object of a CHOICE and has
    /// two members or more. `needed` names the kind of the type, as `hex string`, and `found` is
    /// the value as compact JSON.
    TypeMismatch {
        needed: &'static str,
        found: String,
    },
    /// The digits of a bit string are none. This library never makes it.
    InvalidJerBitstring {
        /// States what is wrong with the digits.
        parse_int_err: DigitFault,
    },
    /// The string is no hexadecimal text of whole octets.
    InvalidJerOctetString {},
    /// The JSON value is no OBJECT IDENTIFIER. `value` is its compact text.
    InvalidOIDString {
        value: String,
    },
    /// The string `discriminant` is the identifier of no item of the ENUMERATED type.
    InvalidEnumDiscriminant {
        discriminant: String,
    },
}

/// Makes errors of JER by the names that the codecs call.
impl JerDecodeErrorKind {
    /// Returns the error that a value is expected where none is.
    pub fn eoi() -> CodecDecodeError
        ensures { codec_cause result ≡ Cause.end_of_input Jer }
    {
        CodecDecodeError::Jer(JerDecodeErrorKind::EndOfInput {})
    }
}

/// Prints what is wrong, without the codec's name.
impl fmt::Display for JerDecodeErrorKind {
    ghost output = { λ kind. Some (jer_decode_text kind) };

    fn fmt<W: fmt::Write>(&self, f: &mut fmt::Formatter<W>) -> fmt::Result {
        match self {
            JerDecodeErrorKind::EndOfInput {} => {
                f.write_str("Unexpected end of input while decoding JER")
            }
            JerDecodeErrorKind::TypeMismatch { needed, found } => write_two(
                f,
                "Found mismatching JSON value. Expected type: ",
                needed,
                ". Found value: ",
                found,
            ),
            JerDecodeErrorKind::InvalidJerBitstring { parse_int_err } => {
                write_before(f, "Found invalid byte in bit string: ", parse_int_err)
            }
            JerDecodeErrorKind::InvalidJerOctetString {} => {
                f.write_str("Found invalid character in octet string")
            }
            JerDecodeErrorKind::InvalidOIDString { value } => {
                write_before(f, "Failed to construct OID from value ", value)
            }
            JerDecodeErrorKind::InvalidEnumDiscriminant { discriminant } => {
                write_before(f, "Found invalid enumerated discriminant ", discriminant)
            }
        }
    }
}

/// Has no source, since no other error lies beneath a kind.
impl Error for JerDecodeErrorKind {}

/// States why a value has no encoding in JER.
#[derive(Debug, Drop)]
pub enum JerEncodeErrorKind {
    /// The JSON writer refused the value. This library never makes it.
    JsonEncodingError {
        /// Holds what the JSON writer states, which is not printed.
        upstream: String,
    },
    /// The encoder was given no value at its root.
    NoRootValueFound,
    /// The encoder refused the value. This library never makes it.
    JsonEncoder {
        /// States why.
        msg: String,
    },
    /// The number in `value` is below -2^63 or not below 2^64, which are the numbers that are
    /// written.
    ExceedsSupportedIntSize {
        value: WholeNumber,
    },
    /// The real number is beyond those that are written. This library never makes it.
    ExceedsSupportedRealRange,
    /// The string has octets or units that are no character, and `error` states where.
    InvalidCharacter {
        error: Utf8Fault,
    },
}

/// Prints what is wrong, without the codec's name.
impl fmt::Display for JerEncodeErrorKind {
    ghost output = { λ kind. Some (jer_encode_text kind) };

    fn fmt<W: fmt::Write>(&self, f: &mut fmt::Formatter<W>) -> fmt::Result {
        match self {
            JerEncodeErrorKind::JsonEncodingError { .. } => f.write_str("JsonEncodingError"),
            JerEncodeErrorKind::NoRootValueFound => {
                f.write_str("No encoded JSON root value found")
            }
            JerEncodeErrorKind::JsonEncoder { msg } => write_before(
                f,
                "Error in JSON encoder: ",
                msg,
            ),
            JerEncodeErrorKind::ExceedsSupportedIntSize { value } => {
                write_around(
                    f,
                    "Exceeds supported integer range -2^63..2^64 (",
                    value,
                    ")",
                )
            }
            JerEncodeErrorKind::ExceedsSupportedRealRange => {
                f.write_str("Exceeds supported real value range")
            }
            JerEncodeErrorKind::InvalidCharacter { error } => {
                write_before(f, "Invalid character: after ", error)
            }
        }
    }
}

/// Has no source, since no other error lies beneath a kind.
impl Error for JerEncodeErrorKind {}
