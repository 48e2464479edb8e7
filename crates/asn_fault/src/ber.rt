//! Defines the kinds of errors of the Basic, Canonical and Distinguished Encoding Rules of X.690
//! (BER, CER and DER), with their texts. The text notations share with BER the rule on the text
//! of a time or date; every other kind comes from binary rules that a caller hands in.
ghost use Rattle.std.specs.Prelude.{◌≡◌, ◌≢◌, MatchResult, Some, string_bytes};
ghost use Rattle.asn_fault.specs.Failure.{Cause, codec_cause, codec_failure, failure_of};
ghost use Rattle.asn_fault.specs.Texts.{ber_decode_text, ber_encode_text, der_decode_text};
ghost use Rattle.asn_fault.specs.declared.codec_specific.CodecDecodeError.TheVariants.{Ber};

use crate::joined::write_joined;
use crate::print::{write_before, write_two};
use crate::{CodecDecodeError, DecodeError};
use asn_core::Tag;
use std::error::Error;
use std::fmt;

/// States why octets, or the text of a time, are no value of a type in BER.
#[derive(Debug, Drop)]
pub enum BerDecodeErrorKind {
    /// The length is indefinite, where only definite ones are allowed (X.690, section 8.1.3.6).
    IndefiniteLengthNotAllowed,
    /// The identifier is of a constructed value, where the type has primitive ones alone.
    InvalidConstructedIdentifier,
    /// The text in `msg` is no UTCTime, GeneralizedTime or DATE (X.680, sections 38, 46 and 47).
    InvalidDate {
        msg: String,
    },
    /// The arcs are no OBJECT IDENTIFIER: the first ones are absent or wrong.
    InvalidObjectIdentifier,
    /// The tag is another one than the type's.
    MismatchedTag {
        /// Holds the tag of the type.
        expected: Tag,
        /// Holds the tag that stands there.
        actual: Tag,
    },
    /// Contents of indefinite length have no end (X.690, section 8.1.5).
    MissingEndOfContents,
    /// The first octet of the length is the reserved one, 0xFF (X.690, section 8.1.3.5).
    ReservedLengthOctet,
    /// The octets that end contents stand where a value is expected.
    UnexpectedEndOfContents,
    /// An arc of an OBJECT IDENTIFIER is greater than the 32 bits that are supported.
    UnsupportedObjectIdentifierArc,
    /// The number of a tag is greater than the 32 bits that are supported.
    UnsupportedTagNumber,
}

/// Makes errors by the names that the codecs call.
impl BerDecodeErrorKind {
    /// Returns the error that a text is no time or date. `msg` is the text.
    pub fn invalid_date(msg: String) -> CodecDecodeError
        ensures { codec_cause result ≡ Cause.invalid_date (string_bytes msg) }
    {
        CodecDecodeError::Ber(BerDecodeErrorKind::InvalidDate { msg })
    }

    /// Checks that a tag is the expected one.
    ///
    /// # Errors
    ///
    /// `MismatchedTag` of BER, exactly where the two differ.
    pub fn assert_tag(expected: Tag, actual: Tag) -> Result<(), DecodeError>
        ensures { MatchResult result (λ _. expected ≡ actual) (λ error. (expected ≢ actual)
            × (failure_of error
            ≡ codec_failure (Ber (BerDecodeErrorKind.MismatchedTag expected actual)))) }
    {
        if expected == actual {
            Ok(())
        } else {
            Err(BerDecodeErrorKind::MismatchedTag { expected, actual }.into())
        }
    }
}

/// Prints what is wrong, without the codec's name.
impl fmt::Display for BerDecodeErrorKind {
    ghost output = { λ kind. Some (ber_decode_text kind) };

    fn fmt<W: fmt::Write>(&self, f: &mut fmt::Formatter<W>) -> fmt::Result {
        match self {
            BerDecodeErrorKind::IndefiniteLengthNotAllowed => {
                f.write_str("Indefinite length encountered but not allowed")
            }
            BerDecodeErrorKind::InvalidConstructedIdentifier => {
                f.write_str("Invalid constructed identifier for ASN.1 value: not primitive")
            }
            BerDecodeErrorKind::InvalidDate { msg } => write_before(
                f,
                "Invalid date string: ",
                msg,
            ),
            BerDecodeErrorKind::InvalidObjectIdentifier => {
                f.write_str("Invalid object identifier with missing or corrupt root nodes")
            }
            BerDecodeErrorKind::MismatchedTag { expected, actual } => {
                write_two(f, "Expected ", expected, " tag, actual tag: ", actual)
            }
            BerDecodeErrorKind::MissingEndOfContents => {
                f.write_str("Missing end-of-contents octets after indefinite length contents")
            }
            BerDecodeErrorKind::ReservedLengthOctet => {
                f.write_str("Reserved length octet 0xFF encountered")
            }
            BerDecodeErrorKind::UnexpectedEndOfContents => {
                f.write_str("End-of-contents octets encountered where a value was expected")
            }
            BerDecodeErrorKind::UnsupportedObjectIdentifierArc => {
                f.write_str("Object identifier arc exceeds the supported 32 bits")
            }
            BerDecodeErrorKind::UnsupportedTagNumber => {
                f.write_str("Tag number exceeds the supported 32 bits")
            }
        }
    }
}

/// Has no source, since no other error lies beneath a kind.
impl Error for BerDecodeErrorKind {}

/// Has no kind: what is wrong in CER is wrong by a kind of BER.
#[derive(Drop)]
pub enum CerDecodeErrorKind {}

/// States why octets are no value of a type in DER, beyond what BER states.
#[derive(Debug, Drop)]
pub enum DerDecodeErrorKind {
    /// The encoding is constructed, where DER has primitive ones alone (X.690, section 10.2).
    ConstructedEncodingNotAllowed,
}

/// Prints what is wrong, without the codec's name.
impl fmt::Display for DerDecodeErrorKind {
    ghost output = { λ kind. Some (der_decode_text kind) };

    fn fmt<W: fmt::Write>(&self, f: &mut fmt::Formatter<W>) -> fmt::Result {
        match self {
            DerDecodeErrorKind::ConstructedEncodingNotAllowed => {
                f.write_str("Constructed encoding encountered but not allowed")
            }
        }
    }
}

/// Has no source, since no other error lies beneath a kind.
impl Error for DerDecodeErrorKind {}

/// States why a value has no encoding in BER.
#[derive(Debug, Drop)]
pub enum BerEncodeErrorKind {
    /// A field of a SET is of type ANY, whose tag is not known.
    AnyInSet,
    /// The arcs in `oid` are no OBJECT IDENTIFIER (X.660, section 7.6).
    InvalidObjectIdentifier { oid: Vec<u32> },
}

/// Makes kinds by the names that the codecs call.
impl BerEncodeErrorKind {
    /// Returns the kind of arcs that are no OBJECT IDENTIFIER.
    pub fn invalid_object_identifier(oid: Vec<u32>) -> BerEncodeErrorKind
        ensures { result ≡ BerEncodeErrorKind.InvalidObjectIdentifier oid }
    {
        BerEncodeErrorKind::InvalidObjectIdentifier { oid }
    }
}

/// Prints what is wrong, without the codec's name.
impl fmt::Display for BerEncodeErrorKind {
    ghost output = { λ kind. Some (ber_encode_text kind) };

    fn fmt<W: fmt::Write>(&self, f: &mut fmt::Formatter<W>) -> fmt::Result {
        match self {
            BerEncodeErrorKind::AnyInSet => {
                f.write_str("Cannot encode `ANY` types in `SET` fields")
            }
            BerEncodeErrorKind::InvalidObjectIdentifier { oid } => {
                write!(
                    f,
                    "Invalid Object Identifier: must have at least two components and first octet \
                     must be 0, 1 or 2. Provided: ["
                )?;
                write_joined(oid.as_slice(), f)?;
                f.write_str("]")
            }
        }
    }
}

/// Has no source, since no other error lies beneath a kind.
impl Error for BerEncodeErrorKind {}

/// Has no kind: what CER cannot encode, BER cannot either.
#[derive(Drop)]
pub enum CerEncodeErrorKind {}

/// Has no kind: what DER cannot encode, BER cannot either.
#[derive(Drop)]
pub enum DerEncodeErrorKind {}
