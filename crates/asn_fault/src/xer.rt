//! Defines the kinds of errors of the XML Encoding Rules of X.693 (XER), with their texts. They
//! are kept as names: the library has no XER.
ghost use Rattle.std.specs.Prelude.{Some};
ghost use Rattle.asn_fault.specs.Texts.{xer_decode_text, xer_encode_text};

use crate::DigitFault;
use crate::print::{write_around_two, write_before, write_two};
use std::error::Error;
use std::fmt;

/// States why an XML text is no value of a type in XER.
#[derive(Debug, Drop)]
pub enum XerDecodeErrorKind {
    /// The text ends where more is expected.
    EndOfXmlInput {},
    /// The XML value is of another kind than the type.
    XmlTypeMismatch {
        /// Names the kind of the type.
        needed: &'static str,
        /// Holds the value as a text.
        found: String,
    },
    /// The string is no hexadecimal text of whole octets.
    InvalidXerOctetstring {
        /// States what is wrong with the digits, and is not printed.
        parse_int_err: DigitFault,
    },
    /// The value is none, for the reason in `details`.
    InvalidInput {
        details: &'static str,
    },
    /// The encoding of an open type is none, for the reason in `details`.
    InvalidOpenType {
        details: String,
    },
    /// The text is no XML. `details` is what the XML parser states.
    XmlParser {
        details: String,
    },
    /// The name of an element is another one than the type's.
    XmlTag {
        /// Holds the name of the type.
        needed: String,
        /// Holds the name that stands there.
        found: String,
    },
    /// The text breaks a rule of X.693, which `details` states.
    SpecViolation {
        details: String,
    },
}

/// Prints what is wrong, without the codec's name.
impl fmt::Display for XerDecodeErrorKind {
    ghost output = { λ kind. Some (xer_decode_text kind) };

    fn fmt<W: fmt::Write>(&self, f: &mut fmt::Formatter<W>) -> fmt::Result {
        match self {
            XerDecodeErrorKind::EndOfXmlInput {} => {
                f.write_str("Unexpected end of input while decoding XER")
            }
            XerDecodeErrorKind::XmlTypeMismatch { needed, found } => write_around_two(
                f,
                "Found mismatching XML value. Expected type: ",
                needed,
                ". Found value: ",
                found,
                ".",
            ),
            XerDecodeErrorKind::InvalidXerOctetstring { .. } => {
                f.write_str("Found invalid character in octet string")
            }
            XerDecodeErrorKind::InvalidInput { details } => {
                write_before(f, "Encountered invalid value: ", details)
            }
            XerDecodeErrorKind::InvalidOpenType { details } => {
                write_before(f, "Found invalid open type encoding: ", details)
            }
            XerDecodeErrorKind::XmlParser { details } => write_before(
                f,
                "XML parser error: ",
                details,
            ),
            XerDecodeErrorKind::XmlTag { needed, found } => {
                write_two(
                    f,
                    "Error matching tag names: expected ",
                    needed,
                    ", found ",
                    found,
                )
            }
            XerDecodeErrorKind::SpecViolation { details } => {
                write_before(f, "Encoding violates ITU-T X.693 (02/2021): ", details)
            }
        }
    }
}

/// Has no source, since no other error lies beneath a kind.
impl Error for XerDecodeErrorKind {}

/// States why a value has no encoding in XER.
#[derive(Debug, Drop)]
pub enum XerEncodeErrorKind {
    /// The XML writer refused the value. What it states is in `upstream`, and is not printed.
    XmlEncodingError { upstream: String },
    /// The number is beyond those that are written.
    UnsupportedIntegerValue,
    /// The type has no name for the element.
    MissingIdentifier,
}

/// Prints what is wrong, without the codec's name.
impl fmt::Display for XerEncodeErrorKind {
    ghost output = { λ kind. Some (xer_encode_text kind) };

    fn fmt<W: fmt::Write>(&self, f: &mut fmt::Formatter<W>) -> fmt::Result {
        match self {
            XerEncodeErrorKind::XmlEncodingError { .. } => f.write_str("XmlEncodingError"),
            XerEncodeErrorKind::UnsupportedIntegerValue => f.write_str("Failed to encode integer"),
            XerEncodeErrorKind::MissingIdentifier => {
                f.write_str("Missing identifier for ASN.1 type")
            }
        }
    }
}

/// Has no source, since no other error lies beneath a kind.
impl Error for XerEncodeErrorKind {}
