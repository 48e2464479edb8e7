//! Defines the kinds of errors that the value notation of X.680 (AVN) alone has, with their
//! texts.
ghost use Rattle.std.specs.Prelude.{◌≡◌, Some};
ghost use Rattle.asn_fault.specs.Failure.{Cause, codec_cause};
ghost use Rattle.asn_fault.specs.Texts.{avn_decode_text, avn_encode_text};
ghost use Rattle.asn_core.specs.declared.codec.Codec.TheVariants.{Avn};

use crate::CodecDecodeError;
use crate::print::{write_before, write_two};
use std::error::Error;
use std::fmt;

/// States why a text or a value of the value notation is no value of a type.
#[derive(Debug, Drop)]
pub enum AvnDecodeErrorKind {
    /// A value is expected where none is: the slot is absent.
    AvnEndOfInput {},
    /// The value is of another kind than the type. `needed` names the kind of the type, as
    /// `boolean`, and `found` is the printed value.
    AvnTypeMismatch { needed: &'static str, found: String },
    /// The text is no string of pairs of hexadecimal digits. This library never makes it.
    InvalidHexString,
    /// The text is no string of binary digits. This library never makes it.
    InvalidBinString,
    /// The arcs in `value` are no OBJECT IDENTIFIER.
    InvalidOid { value: String },
    /// The identifier `discriminant` is that of no item of the ENUMERATED type.
    AvnInvalidEnumDiscriminant { discriminant: String },
    /// The text is not in the notation. `found` is an excerpt of the text from there on.
    UnexpectedToken { found: String },
    /// A string has no end. This library never makes it.
    UnterminatedString,
    /// The text of a number, in `msg`, is no number.
    IntegerParseError { msg: String },
}

/// Makes errors of AVN by the names that the codecs call.
impl AvnDecodeErrorKind {
    /// Returns the error that a value is expected where none is.
    pub fn eoi() -> CodecDecodeError
        ensures { codec_cause result ≡ Cause.end_of_input Avn }
    {
        CodecDecodeError::Avn(AvnDecodeErrorKind::AvnEndOfInput {})
    }
}

/// Prints what is wrong, without the codec's name.
impl fmt::Display for AvnDecodeErrorKind {
    ghost output = { λ kind. Some (avn_decode_text kind) };

    fn fmt<W: fmt::Write>(&self, f: &mut fmt::Formatter<W>) -> fmt::Result {
        match self {
            AvnDecodeErrorKind::AvnEndOfInput {} => f.write_str("Unexpected end of AVN input"),
            AvnDecodeErrorKind::AvnTypeMismatch { needed, found } => {
                write_two(f, "AVN type mismatch: expected ", needed, ", found ", found)
            }
            AvnDecodeErrorKind::InvalidHexString => f.write_str("Invalid hex string in AVN"),
            AvnDecodeErrorKind::InvalidBinString => f.write_str("Invalid binary string in AVN"),
            AvnDecodeErrorKind::InvalidOid { value } => {
                write_before(f, "Invalid OID in AVN: ", value)
            }
            AvnDecodeErrorKind::AvnInvalidEnumDiscriminant { discriminant } => {
                write_before(f, "Invalid enumerated discriminant in AVN: ", discriminant)
            }
            AvnDecodeErrorKind::UnexpectedToken { found } => {
                write_before(f, "Unexpected token in AVN: ", found)
            }
            AvnDecodeErrorKind::UnterminatedString => {
                f.write_str("Unterminated string literal in AVN")
            }
            AvnDecodeErrorKind::IntegerParseError { msg } => {
                write_before(f, "Integer parse error in AVN: ", msg)
            }
        }
    }
}

/// Has no source, since no other error lies beneath a kind.
impl Error for AvnDecodeErrorKind {}

/// States why a value is not written in the value notation.
#[derive(Debug, Drop)]
pub enum AvnEncodeErrorKind {
    /// The encoder was given no value at its root.
    AvnNoRootValueFound,
    /// The value has no text in the notation, for the reason in `msg`.
    AvnEncoder { msg: String },
    /// The real number is beyond those that are written. This library never makes it.
    AvnExceedsSupportedRealRange,
}

/// Prints what is wrong, without the codec's name.
impl fmt::Display for AvnEncodeErrorKind {
    ghost output = { λ kind. Some (avn_encode_text kind) };

    fn fmt<W: fmt::Write>(&self, f: &mut fmt::Formatter<W>) -> fmt::Result {
        match self {
            AvnEncodeErrorKind::AvnNoRootValueFound => {
                f.write_str("No encoded AVN root value found")
            }
            AvnEncodeErrorKind::AvnEncoder { msg } => {
                write_before(f, "Error in AVN encoder: ", msg)
            }
            AvnEncodeErrorKind::AvnExceedsSupportedRealRange => {
                f.write_str("Exceeds supported real value range for AVN encoding")
            }
        }
    }
}

/// Has no source, since no other error lies beneath a kind.
impl Error for AvnEncodeErrorKind {}
