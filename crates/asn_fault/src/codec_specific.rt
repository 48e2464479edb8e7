//! Groups the kinds of errors that a single set of encoding rules has, and converts each of them
//! into an error of that codec.
ghost use Rattle.std.specs.Prelude.{◌≡◌, Some};
ghost use Rattle.asn_fault.specs.Failure.{codec_failure, failure_of};
ghost use Rattle.asn_fault.specs.Texts.{codec_decode_text, codec_encode_text};
ghost use Rattle.asn_fault.specs.EncodeCause.{codec_refusal};
ghost use Rattle.asn_fault.specs.declared.codec_specific.CodecDecodeError.TheVariants as decoding;
ghost use Rattle.asn_fault.specs.declared.codec_specific.CodecEncodeError.TheVariants as encoding;

use crate::print::{write_before, write_variant};
use crate::{
    AperDecodeErrorKind, AperEncodeErrorKind, AvnDecodeErrorKind, AvnEncodeErrorKind,
    BerDecodeErrorKind, BerEncodeErrorKind, CerDecodeErrorKind, CerEncodeErrorKind,
    CoerDecodeErrorKind, CoerEncodeErrorKind, DecodeError, DecodeErrorKind, DerDecodeErrorKind,
    DerEncodeErrorKind, EncodeError, EncodeErrorKind, JerDecodeErrorKind, JerEncodeErrorKind,
    OerDecodeErrorKind, UperDecodeErrorKind, UperEncodeErrorKind, XerDecodeErrorKind,
    XerEncodeErrorKind,
};
use asn_core::Codec;
use std::fmt;

/// Groups the kinds of errors of decoding by the encoding rules that have them.
#[derive(Drop)]
pub enum CodecDecodeError {
    /// The value breaks a rule that BER has too.
    Ber(BerDecodeErrorKind),
    /// No value, since CER has no kinds of its own.
    Cer(CerDecodeErrorKind),
    /// The octets break a rule of DER.
    Der(DerDecodeErrorKind),
    /// No value, since UPER has no kinds of its own.
    Uper(UperDecodeErrorKind),
    /// No value, since APER has no kinds of its own.
    Aper(AperDecodeErrorKind),
    /// The JSON value breaks a rule of JER.
    Jer(JerDecodeErrorKind),
    /// The octets break a rule of OER.
    Oer(OerDecodeErrorKind),
    /// The octets break a rule of COER.
    Coer(CoerDecodeErrorKind),
    /// The XML value breaks a rule of XER.
    Xer(XerDecodeErrorKind),
    /// The text, or the value of the notation, breaks a rule of AVN.
    Avn(AvnDecodeErrorKind),
}

/// Prints the name of the codec in capitals, and then the kind.
impl fmt::Display for CodecDecodeError {
    ghost output = { λ error. Some (codec_decode_text error) };

    fn fmt<W: fmt::Write>(&self, f: &mut fmt::Formatter<W>) -> fmt::Result {
        match self {
            CodecDecodeError::Ber(kind) => write_before(f, "BER decoding error: ", kind),
            CodecDecodeError::Cer(kind) => match *kind {},
            CodecDecodeError::Der(kind) => write_before(f, "DER decoding error: ", kind),
            CodecDecodeError::Uper(kind) => match *kind {},
            CodecDecodeError::Aper(kind) => match *kind {},
            CodecDecodeError::Jer(kind) => write_before(f, "JER decoding error: ", kind),
            CodecDecodeError::Oer(kind) => write_before(f, "OER decoding error: ", kind),
            CodecDecodeError::Coer(kind) => write_before(f, "COER decoding error: ", kind),
            CodecDecodeError::Xer(kind) => write_before(f, "XER decoding error: ", kind),
            CodecDecodeError::Avn(kind) => write_before(f, "AVN decoding error: ", kind),
        }
    }
}

/// Prints the codec, and the kind in parentheses. It is written by hand, since a kind that no
/// value has prints nothing.
impl fmt::Debug for CodecDecodeError {
    fn fmt<W: fmt::Write>(&self, f: &mut fmt::Formatter<W>) -> fmt::Result {
        match self {
            CodecDecodeError::Ber(kind) => write_variant(f, "Ber", kind),
            CodecDecodeError::Cer(kind) => match *kind {},
            CodecDecodeError::Der(kind) => write_variant(f, "Der", kind),
            CodecDecodeError::Uper(kind) => match *kind {},
            CodecDecodeError::Aper(kind) => match *kind {},
            CodecDecodeError::Jer(kind) => write_variant(f, "Jer", kind),
            CodecDecodeError::Oer(kind) => write_variant(f, "Oer", kind),
            CodecDecodeError::Coer(kind) => write_variant(f, "Coer", kind),
            CodecDecodeError::Xer(kind) => write_variant(f, "Xer", kind),
            CodecDecodeError::Avn(kind) => write_variant(f, "Avn", kind),
        }
    }
}

/// Groups the kinds of errors of encoding by the encoding rules that have them.
#[derive(Drop)]
pub enum CodecEncodeError {
    /// The value is beyond what BER writes.
    Ber(BerEncodeErrorKind),
    /// No value, since CER has no kinds of its own.
    Cer(CerEncodeErrorKind),
    /// No value, since DER has no kinds of its own.
    Der(DerEncodeErrorKind),
    /// No value, since UPER has no kinds of its own.
    Uper(UperEncodeErrorKind),
    /// No value, since APER has no kinds of its own.
    Aper(AperEncodeErrorKind),
    /// The value is beyond what JER writes.
    Jer(JerEncodeErrorKind),
    /// The value is beyond what COER writes.
    Coer(CoerEncodeErrorKind),
    /// The value is beyond what XER writes.
    Xer(XerEncodeErrorKind),
    /// The value is beyond what AVN writes.
    Avn(AvnEncodeErrorKind),
}

/// Prints the name of the codec in capitals, and then the kind.
impl fmt::Display for CodecEncodeError {
    ghost output = { λ error. Some (codec_encode_text error) };

    fn fmt<W: fmt::Write>(&self, f: &mut fmt::Formatter<W>) -> fmt::Result {
        match self {
            CodecEncodeError::Ber(kind) => write_before(f, "BER encoding error: ", kind),
            CodecEncodeError::Cer(kind) => match *kind {},
            CodecEncodeError::Der(kind) => match *kind {},
            CodecEncodeError::Uper(kind) => match *kind {},
            CodecEncodeError::Aper(kind) => match *kind {},
            CodecEncodeError::Jer(kind) => write_before(f, "JER encoding error: ", kind),
            CodecEncodeError::Coer(kind) => write_before(f, "COER encoding error: ", kind),
            CodecEncodeError::Xer(kind) => write_before(f, "XER encoding error: ", kind),
            CodecEncodeError::Avn(kind) => write_before(f, "AVN encoding error: ", kind),
        }
    }
}

/// Prints the codec, and the kind in parentheses. It is written by hand, since a kind that no
/// value has prints nothing.
impl fmt::Debug for CodecEncodeError {
    fn fmt<W: fmt::Write>(&self, f: &mut fmt::Formatter<W>) -> fmt::Result {
        match self {
            CodecEncodeError::Ber(kind) => write_variant(f, "Ber", kind),
            CodecEncodeError::Cer(kind) => match *kind {},
            CodecEncodeError::Der(kind) => match *kind {},
            CodecEncodeError::Uper(kind) => match *kind {},
            CodecEncodeError::Aper(kind) => match *kind {},
            CodecEncodeError::Jer(kind) => write_variant(f, "Jer", kind),
            CodecEncodeError::Coer(kind) => write_variant(f, "Coer", kind),
            CodecEncodeError::Xer(kind) => write_variant(f, "Xer", kind),
            CodecEncodeError::Avn(kind) => write_variant(f, "Avn", kind),
        }
    }
}

/// Wraps a kind of one set of encoding rules in an error of its codec.
impl From<CodecDecodeError> for DecodeError {
    ghost from_gives = { λ inner error. failure_of error ≡ codec_failure inner };

    fn from(inner: CodecDecodeError) -> DecodeError {
        let codec = match &inner {
            CodecDecodeError::Ber(_) => Codec::Ber,
            CodecDecodeError::Cer(_) => Codec::Cer,
            CodecDecodeError::Der(_) => Codec::Der,
            CodecDecodeError::Uper(_) => Codec::Uper,
            CodecDecodeError::Aper(_) => Codec::Aper,
            CodecDecodeError::Jer(_) => Codec::Jer,
            CodecDecodeError::Oer(_) => Codec::Oer,
            CodecDecodeError::Coer(_) => Codec::Coer,
            CodecDecodeError::Xer(_) => Codec::Xer,
            CodecDecodeError::Avn(_) => Codec::Avn,
        };
        DecodeError::from_kind(DecodeErrorKind::CodecSpecific { inner }, codec)
    }
}

/// Wraps a kind of BER in an error of the codec BER, so that `?` and `into` take it.
impl From<BerDecodeErrorKind> for DecodeError {
    ghost from_gives = { λ kind error. failure_of error ≡ codec_failure (decoding.Ber kind) };

    fn from(kind: BerDecodeErrorKind) -> DecodeError {
        DecodeError::from(CodecDecodeError::Ber(kind))
    }
}

/// Wraps a kind of DER in an error of the codec DER, so that `?` and `into` take it.
impl From<DerDecodeErrorKind> for DecodeError {
    ghost from_gives = { λ kind error. failure_of error ≡ codec_failure (decoding.Der kind) };

    fn from(kind: DerDecodeErrorKind) -> DecodeError {
        DecodeError::from(CodecDecodeError::Der(kind))
    }
}

/// Wraps a kind of JER in an error of the codec JER, so that `?` and `into` take it.
impl From<JerDecodeErrorKind> for DecodeError {
    ghost from_gives = { λ kind error. failure_of error ≡ codec_failure (decoding.Jer kind) };

    fn from(kind: JerDecodeErrorKind) -> DecodeError {
        DecodeError::from(CodecDecodeError::Jer(kind))
    }
}

/// Wraps a kind of OER in an error of the codec OER, so that `?` and `into` take it.
impl From<OerDecodeErrorKind> for DecodeError {
    ghost from_gives = { λ kind error. failure_of error ≡ codec_failure (decoding.Oer kind) };

    fn from(kind: OerDecodeErrorKind) -> DecodeError {
        DecodeError::from(CodecDecodeError::Oer(kind))
    }
}

/// Wraps a kind of COER in an error of the codec COER, so that `?` and `into` take it.
impl From<CoerDecodeErrorKind> for DecodeError {
    ghost from_gives = { λ kind error. failure_of error ≡ codec_failure (decoding.Coer kind) };

    fn from(kind: CoerDecodeErrorKind) -> DecodeError {
        DecodeError::from(CodecDecodeError::Coer(kind))
    }
}

/// Wraps a kind of XER in an error of the codec XER, so that `?` and `into` take it.
impl From<XerDecodeErrorKind> for DecodeError {
    ghost from_gives = { λ kind error. failure_of error ≡ codec_failure (decoding.Xer kind) };

    fn from(kind: XerDecodeErrorKind) -> DecodeError {
        DecodeError::from(CodecDecodeError::Xer(kind))
    }
}

/// Wraps a kind of AVN in an error of the codec AVN, so that `?` and `into` take it.
impl From<AvnDecodeErrorKind> for DecodeError {
    ghost from_gives = { λ kind error. failure_of error ≡ codec_failure (decoding.Avn kind) };

    fn from(kind: AvnDecodeErrorKind) -> DecodeError {
        DecodeError::from(CodecDecodeError::Avn(kind))
    }
}

/// Wraps a kind of one set of encoding rules in an error of its codec.
impl From<CodecEncodeError> for EncodeError {
    ghost from_gives = { λ inner error. error ≡ codec_refusal inner };

    fn from(inner: CodecEncodeError) -> EncodeError {
        let codec = match &inner {
            CodecEncodeError::Ber(_) => Codec::Ber,
            CodecEncodeError::Cer(_) => Codec::Cer,
            CodecEncodeError::Der(_) => Codec::Der,
            CodecEncodeError::Uper(_) => Codec::Uper,
            CodecEncodeError::Aper(_) => Codec::Aper,
            CodecEncodeError::Jer(_) => Codec::Jer,
            CodecEncodeError::Coer(_) => Codec::Coer,
            CodecEncodeError::Xer(_) => Codec::Xer,
            CodecEncodeError::Avn(_) => Codec::Avn,
        };
        EncodeError::from_kind(EncodeErrorKind::CodecSpecific { inner }, codec)
    }
}

/// Wraps a kind of BER in an error of the codec BER, so that `?` and `into` take it.
impl From<BerEncodeErrorKind> for EncodeError {
    ghost from_gives = { λ kind error. error ≡ codec_refusal (encoding.Ber kind) };

    fn from(kind: BerEncodeErrorKind) -> EncodeError {
        EncodeError::from(CodecEncodeError::Ber(kind))
    }
}

/// Wraps a kind of JER in an error of the codec JER, so that `?` and `into` take it.
impl From<JerEncodeErrorKind> for EncodeError {
    ghost from_gives = { λ kind error. error ≡ codec_refusal (encoding.Jer kind) };

    fn from(kind: JerEncodeErrorKind) -> EncodeError {
        EncodeError::from(CodecEncodeError::Jer(kind))
    }
}

/// Wraps a kind of COER in an error of the codec COER, so that `?` and `into` take it.
impl From<CoerEncodeErrorKind> for EncodeError {
    ghost from_gives = { λ kind error. error ≡ codec_refusal (encoding.Coer kind) };

    fn from(kind: CoerEncodeErrorKind) -> EncodeError {
        EncodeError::from(CodecEncodeError::Coer(kind))
    }
}

/// Wraps a kind of XER in an error of the codec XER, so that `?` and `into` take it.
impl From<XerEncodeErrorKind> for EncodeError {
    ghost from_gives = { λ kind error. error ≡ codec_refusal (encoding.Xer kind) };

    fn from(kind: XerEncodeErrorKind) -> EncodeError {
        EncodeError::from(CodecEncodeError::Xer(kind))
    }
}

/// Wraps a kind of AVN in an error of the codec AVN, so that `?` and `into` take it.
impl From<AvnEncodeErrorKind> for EncodeError {
    ghost from_gives = { λ kind error. error ≡ codec_refusal (encoding.Avn kind) };

    fn from(kind: AvnEncodeErrorKind) -> EncodeError {
        EncodeError::from(CodecEncodeError::Avn(kind))
    }
}
