//! Passes on the plain types that ASN.1 types and both notations share, under one name: what
//! `asn_core` has, the multisets of `asn_sets`, the character strings of `asn_strings`, and the
//! times of `asn_times` with what makes them of `jiff`'s civil values (`asn_civil`).
#![tactic(auto)]

pub use asn_civil::{CivilDate, CivilGeneralizedTime, CivilUtcTime};
pub use asn_core::{
    Any, BitString, Bits, Bound, Bounded, Class, Codec, Constraint, Constraints, Extensible,
    Identifier, Integer, ObjectIdentifier, OctetString, Oid, OutOfMemory, Scan, Size, Tag, TagTree,
    Variants, WholeNumber,
};
pub use asn_sets::SetOf;
pub use asn_strings::{
    BmpString, CharacterSet, GeneralString, GraphicString, Ia5String, NumericString,
    PrintableString, RestrictedOctets, RestrictedString, StringFault, TeletexString,
    UniversalString, Utf8String, VisibleString,
};
pub use asn_times::{
    Date, GeneralizedTime, TimeFault, UtcTime, read_date, read_generalized, read_utc, write_date,
    write_generalized, write_utc,
};
