//! Defines the kinds of errors of the Octet Encoding Rules of X.696 (OER and COER), with their
//! texts. They come from binary rules that a caller hands in.
ghost use Rattle.std.specs.Prelude.{◌≡◌, ◌++◌, Some};
ghost use Rattle.asn_fault.specs.Texts.{coer_decode_text, coer_encode_text, oer_decode_text};
ghost use Rattle.asn_fault.specs.Failure.{codec_failure, failure_of};
ghost use Rattle.asn_fault.specs.declared.codec_specific.CodecDecodeError.TheVariants.{Oer};

use crate::DecodeError;
use crate::print::{write_before, write_two};
use asn_core::Tag;
use std::error::Error;
use std::fmt;

/// States why octets are no value of a type in OER.
#[derive(Debug, Drop)]
pub enum OerDecodeErrorKind {
    /// The class of a CHOICE's tag, whose bits are in `class`, is none (X.696, section 8.7).
    InvalidTagClassOnChoice {
        class: u8,
    },
    /// The number of a CHOICE's tag, in `value`, is none (X.696, section 8.7).
    InvalidTagNumberOnChoice {
        value: u32,
    },
    /// The tag is that of no alternative of the CHOICE type.
    InvalidTagVariantOnChoice {
        /// Holds the tag.
        value: Tag,
        /// States whether the type has an extension marker.
        is_extensible: bool,
    },
    /// The header of extension additions is none, for the reason in `msg`, which is not printed.
    InvalidExtensionHeader {
        msg: String,
    },
    /// The octets are no bit string, for the reason in `msg`.
    InvalidOerBitString {
        msg: String,
    },
    /// The preamble of a SEQUENCE or SET is none, for the reason in `msg`.
    InvalidPreamble {
        msg: String,
    },
}

/// Makes errors of OER by the names that its rules call.
impl OerDecodeErrorKind {
    /// Returns the error that the number of a CHOICE's tag is none.
    pub fn invalid_tag_number_on_choice(value: u32) -> DecodeError
        ensures { failure_of result ≡ codec_failure
            (Oer (OerDecodeErrorKind.InvalidTagNumberOnChoice value)) }
    {
        OerDecodeErrorKind::InvalidTagNumberOnChoice { value }.into()
    }

    /// Returns the error that a tag is that of no alternative of the CHOICE type, which may have
    /// an extension marker.
    pub fn invalid_tag_variant_on_choice(value: Tag, is_extensible: bool) -> DecodeError
        ensures { failure_of result ≡ codec_failure
            (Oer (OerDecodeErrorKind.InvalidTagVariantOnChoice value is_extensible)) }
    {
        OerDecodeErrorKind::InvalidTagVariantOnChoice {
            value,
            is_extensible,
        }
        .into()
    }

    /// Returns the error that the header of extension additions is none, for the reason in `msg`.
    pub fn invalid_extension_header(msg: String) -> DecodeError
        ensures { failure_of result ≡ codec_failure
            (Oer (OerDecodeErrorKind.InvalidExtensionHeader msg)) }
    {
        OerDecodeErrorKind::InvalidExtensionHeader { msg }.into()
    }

    /// Returns the error that octets are no bit string, for the reason in `msg`.
    pub fn invalid_bit_string(msg: String) -> DecodeError
        ensures { failure_of result ≡ codec_failure
            (Oer (OerDecodeErrorKind.InvalidOerBitString msg)) }
    {
        OerDecodeErrorKind::InvalidOerBitString { msg }.into()
    }

    /// Returns the error that the preamble of a SEQUENCE or SET is none, for the reason in `msg`.
    pub fn invalid_preamble(msg: String) -> DecodeError
        ensures { failure_of result ≡ codec_failure (Oer (OerDecodeErrorKind.InvalidPreamble msg)) }
    {
        OerDecodeErrorKind::InvalidPreamble { msg }.into()
    }
}

/// Prints what is wrong, without the codec's name.
impl fmt::Display for OerDecodeErrorKind {
    ghost output = { λ kind. Some (oer_decode_text kind) };

    fn fmt<W: fmt::Write>(&self, f: &mut fmt::Formatter<W>) -> fmt::Result {
        match self {
            OerDecodeErrorKind::InvalidTagClassOnChoice { class } => {
                write_before(f, "Invalid tag class when decoding choice: actual ", class)
            }
            OerDecodeErrorKind::InvalidTagNumberOnChoice { value } => {
                write_before(f, "Invalid tag number when decoding Choice: ", value)
            }
            OerDecodeErrorKind::InvalidTagVariantOnChoice {
                value,
                is_extensible,
            } => write_two(
                f,
                "Tag not found from the variants of the platform when decoding Choice. Tag: ",
                value,
                ", extensible status: ",
                is_extensible,
            ),
            OerDecodeErrorKind::InvalidExtensionHeader { .. } => {
                f.write_str("InvalidExtensionHeader")
            }
            OerDecodeErrorKind::InvalidOerBitString { msg } => {
                write_before(f, "Invalid BitString: ", msg)
            }
            OerDecodeErrorKind::InvalidPreamble { msg } => write_before(
                f,
                "Invalid preamble: ",
                msg,
            ),
        }
    }
}

/// Has no source, since no other error lies beneath a kind.
impl Error for OerDecodeErrorKind {}

/// States why octets are no value of a type in COER, beyond what OER states.
#[derive(Debug, Drop)]
pub enum CoerDecodeErrorKind {
    /// The encoding is not the canonical one, for the reason in `msg`.
    NotValidCanonicalEncoding { msg: String },
}

/// Prints what is wrong, without the codec's name.
impl fmt::Display for CoerDecodeErrorKind {
    ghost output = { λ kind. Some (coer_decode_text kind) };

    fn fmt<W: fmt::Write>(&self, f: &mut fmt::Formatter<W>) -> fmt::Result {
        match self {
            CoerDecodeErrorKind::NotValidCanonicalEncoding { msg } => write_before(
                f,
                "Invalid Canonical Octet Encoding, not encoded as the smallest possible number \
                 of octets: ",
                msg,
            ),
        }
    }
}

/// Has no source, since no other error lies beneath a kind.
impl Error for CoerDecodeErrorKind {}

/// States why a value has no encoding in COER.
#[derive(Debug, Drop)]
pub enum CoerEncodeErrorKind {
    /// The value has more octets than a length states, which `length` counts.
    TooLongValue { length: u128 },
    /// The number is outside the words that its constraint has (X.696, section 10).
    InvalidConstrainedIntegerOctetSize,
}

/// Prints what is wrong, without the codec's name.
impl fmt::Display for CoerEncodeErrorKind {
    ghost output = { λ kind. Some (coer_encode_text kind) };

    fn fmt<W: fmt::Write>(&self, f: &mut fmt::Formatter<W>) -> fmt::Result {
        match self {
            CoerEncodeErrorKind::TooLongValue { length: _ } => {
                f.write_str("Provided data is too long to be encoded with COER")
            }
            CoerEncodeErrorKind::InvalidConstrainedIntegerOctetSize => {
                f.write_str("Provided integer exceeds limits of the constrained word sizes")
            }
        }
    }
}

/// Has no source, since no other error lies beneath a kind.
impl Error for CoerEncodeErrorKind {}
