//! The front door: what a program calls to read, write and convert the values of its types, and the
//! types of ASN.1 that a value holds, under one name. It has no code of its own.
#![tactic(auto)]

pub use asn_base::{
    Any, BitString, Bits, BmpString, CivilDate, CivilGeneralizedTime, CivilUtcTime, Codec, Date,
    GeneralString, GeneralizedTime, GraphicString, Ia5String, Integer, NumericString,
    ObjectIdentifier, OctetString, Oid, OutOfMemory, PrintableString, SetOf, UniversalString,
    UtcTime, Utf8String, VisibleString,
};
pub use asn_codec::{
    BinaryRules, CodecCalls, GREATEST_LEVEL_LIMIT, LEVEL_LIMIT, NoRules, TranscodeError, transcode,
    transcode_within,
};
pub use asn_fault::{DecodeError, DecodeErrorKind, EncodeError, EncodeErrorKind};
pub use asn_traits::{AsnType, Decode, Encode};
