//! Has the traits of ASN.1 types and of codecs under one name. Those that describe, encode and
//! decode types come from `asn_types`, `asn_encode` and `asn_decode`, and what contracts cite of
//! them from `asn_model` and `asn_coding`. A type of one's own implements `AsnType`, `Encode` and
//! `Decode`, or the trait of its kind, from which it has them (`sequence`, `alternative`, `kinds`).
#![tactic(auto)]

mod alternative;
mod kinds;
mod rows;
mod sequence;

pub use alternative::{ChoiceElement, ChoicePayload, read_choice, write_choice};
pub use asn_coding::{
    Field, FieldNames, Fields, Identifiers, Name, NameList, Opened, Presence, TableNames, place_of,
    place_of_field,
};
pub use asn_core::TagTree;
pub use asn_decode::{Decode, DecodeChoice, DecodeChoiceKind, DecodeKind, Decoder};
pub use asn_encode::{Encode, EncodeKind, EncodeText, Encoder};
pub use asn_integers::IntegerType;
pub use asn_model::{
    Alphabet, AlternativeShape, FieldShape, Leaf, LeafKind, OwnedLeaf, Plain, PresenceShape,
    SeqKind, Shape, is_readable, laws,
};
pub use asn_types::{
    AsnType, Choice, Constructed, DescribeKind, ElementKind, Enumerated, EnumeratedKind,
    FieldTableKind, IntegerKind, NamedSet, OctetsSet, OfKind, PlainKind, SetElement, SetField,
    TextKind, TextSet, TextType, VariantTableKind,
};
pub use kinds::{ChoiceKind, FieldsKind, SequenceKind, SetKind};
pub use sequence::{SequenceFields, read_sequence, write_sequence};
