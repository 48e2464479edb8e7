//! Lists the sample types by their names. `Sample::accept` is the one place that joins a name, a
//! Rust type and a shape, so a new sample is a row in each of the three lists here and one in
//! `specs/Samples.antt`.
ghost use Rattle.asn_growth.specs.Parts.{node_count};
ghost use Rattle.asn_samples.specs.Samples.{described_samples, plain_samples};
ghost use Rattle.asn_samples.specs.Samples.{sample_beside, sample_named, sample_shape};
ghost use Rattle.asn_traits.specs.Readable.{is_readable};
ghost use Rattle.asn_traits.specs.ShapeView.{shape_view};
ghost use Rattle.std.specs.Option.{option_map};
ghost use Rattle.std.specs.Prelude.{◌≡◌, ◌<◌, ◌^◌, IfOk, IfSome, is_some, true};

use crate::SampleVisitor;
use asn_core::{Any, BitString, Integer, ObjectIdentifier, OctetString, OutOfMemory};
use asn_document::Document;
use asn_sets::SetOf;
use asn_strings::{
    BmpString, GeneralString, GraphicString, Ia5String, NumericString, PrintableString,
    UniversalString, VisibleString,
};
use asn_times::{Date, GeneralizedTime, UtcTime};
use asn_traits::{Decode, Encode, Shape};
use std::alloc::Global;

/// Lists the sample types, each a Rust type with the traits of an ASN.1 type.
#[derive(Clone, Copy, Debug, PartialEq, Eq, Drop)]
pub enum Sample {
    /// Is BOOLEAN, as `bool`.
    Bool,
    /// Is NULL, as `()`.
    Null,
    /// Is INTEGER (0..255), as `u8`.
    U8,
    /// Is INTEGER (-2^63..2^63-1), as `i64`.
    I64,
    /// Is INTEGER (0..2^64-1), as `u64`.
    U64,
    /// Is INTEGER (0..2^128-1), as `u128`.
    U128,
    /// Is INTEGER, as far as `i128` goes.
    Integer,
    /// Is UTF8String, as `String`.
    Utf8String,
    /// Is NumericString.
    NumericString,
    /// Is PrintableString.
    PrintableString,
    /// Is VisibleString.
    VisibleString,
    /// Is IA5String.
    Ia5String,
    /// Is GeneralString.
    GeneralString,
    /// Is GraphicString.
    GraphicString,
    /// Is BMPString.
    BmpString,
    /// Is UniversalString.
    UniversalString,
    /// Is UTCTime.
    UtcTime,
    /// Is GeneralizedTime.
    GeneralizedTime,
    /// Is DATE.
    Date,
    /// Is SEQUENCE OF INTEGER (0..255), as `Vec<u8>`.
    SequenceOfU8,
    /// Is SEQUENCE OF INTEGER (-2^63..2^63-1), as `Vec<i64>`.
    SequenceOfI64,
    /// Is SEQUENCE OF BOOLEAN, as `Vec<bool>`.
    SequenceOfBool,
    /// Is SEQUENCE OF SimpleChoice, as `Vec<SimpleChoice>`.
    SequenceOfSimpleChoice,
    /// Is SET OF INTEGER (0..255), as `SetOf<u8>`.
    SetOfU8,
    /// Is OCTET STRING.
    OctetString,
    /// Is BIT STRING.
    BitString,
    /// Is a value of any type.
    Any,
    /// Is OBJECT IDENTIFIER.
    ObjectIdentifier,
    /// Is a JSON document.
    Document,
    /// Is a SEQUENCE one of whose fields has another name than in Rust.
    Renamed,
    /// Is a CHOICE of one alternative.
    Inner,
    /// Is an ENUMERATED type.
    SimpleEnum,
    /// Is an ENUMERATED type with an extension marker.
    ExtEnum,
    /// Is a CHOICE.
    SimpleChoice,
    /// Is a CHOICE with an extension marker.
    ExtChoice,
    /// Is a CHOICE with an extension marker that no alternative follows.
    OldPart,
    /// Is its later version, with an alternative more.
    NewPart,
    /// Is a SEQUENCE that holds another.
    Nested,
    /// Is a SEQUENCE of one field that may be absent.
    Struct,
    /// Is a SEQUENCE with an extension addition.
    TestTypeA,
    /// Is a SEQUENCE with an extension addition that may be absent.
    Very,
    /// Is a SEQUENCE with a default.
    Defaulted,
    /// Is a SET, whose tags are not in the order of its fields.
    MarkSet,
    /// Is a SEQUENCE with a SET OF and an extension marker.
    OldReport,
    /// Is its later version, with extension additions.
    NewReport,
    /// Is an ENUMERATED type with an extension marker that no item follows.
    OldMode,
    /// Is its later version, with an item more.
    NewMode,
    /// Is a SEQUENCE that holds itself, with an extension marker that no addition follows.
    OldTree,
    /// Is its later version, with an extension addition.
    NewTree,
    /// Is a SEQUENCE with a NULL that may be absent.
    WithNullOpt,
    /// Is a BIT STRING of a fixed size.
    ConstrainedBitString,
    /// Is a BIT STRING whose size has an extension marker.
    ExtensibleBitString,
    /// Is a SEQUENCE of a BIT STRING under constraints with an extension marker.
    ExtensibleBitStringField,
    /// Is a SEQUENCE OF itself.
    Nest,
}

/// Finds sample types by their names, and runs computations at their Rust types.
impl Sample {
    /// Returns the sample type of that name, or `None` where there is none. Names are those of the
    /// program's request line, as `SequenceOf<u8>`; case counts.
    pub fn named(name: &str) -> Option<Sample>
        ensures { result ≡ sample_named name.now }
    {
        match plain_named(name) {
            Some(sample) => Some(sample),
            None => described_named(name),
        }
    }

    /// Runs the visitor at the Rust type of the sample, and returns what it returns. The clause is
    /// what the visitor promises, at the shape of this sample.
    pub fn accept<S, V: SampleVisitor<S>>(self, visitor: V, state: &mut S) -> V::Output
        ensures { V.visits visitor (sample_shape self) state.old state.new result }
    {
        match self {
            Sample::Bool => visitor.visit::<bool>(state),
            Sample::Null => visitor.visit::<()>(state),
            Sample::U8 => visitor.visit::<u8>(state),
            Sample::I64 => visitor.visit::<i64>(state),
            Sample::U64 => visitor.visit::<u64>(state),
            Sample::U128 => visitor.visit::<u128>(state),
            Sample::Integer => visitor.visit::<Integer>(state),
            Sample::Utf8String => visitor.visit::<String>(state),
            Sample::NumericString => visitor.visit::<NumericString>(state),
            Sample::PrintableString => visitor.visit::<PrintableString>(state),
            Sample::VisibleString => visitor.visit::<VisibleString>(state),
            Sample::Ia5String => visitor.visit::<Ia5String>(state),
            Sample::GeneralString => visitor.visit::<GeneralString>(state),
            Sample::GraphicString => visitor.visit::<GraphicString>(state),
            Sample::BmpString => visitor.visit::<BmpString>(state),
            Sample::UniversalString => visitor.visit::<UniversalString>(state),
            Sample::UtcTime => visitor.visit::<UtcTime>(state),
            Sample::GeneralizedTime => visitor.visit::<GeneralizedTime>(state),
            Sample::Date => visitor.visit::<Date>(state),
            Sample::SequenceOfU8 => visitor.visit::<Vec<u8>>(state),
            Sample::SequenceOfI64 => visitor.visit::<Vec<i64>>(state),
            Sample::SequenceOfBool => visitor.visit::<Vec<bool>>(state),
            Sample::SequenceOfSimpleChoice => visitor.visit::<Vec<crate::SimpleChoice>>(state),
            Sample::SetOfU8 => visitor.visit::<SetOf<u8>>(state),
            Sample::OctetString => visitor.visit::<OctetString>(state),
            Sample::BitString => visitor.visit::<BitString>(state),
            Sample::Any => visitor.visit::<Any>(state),
            Sample::ObjectIdentifier => visitor.visit::<ObjectIdentifier>(state),
            Sample::Document => visitor.visit::<Document>(state),
            Sample::Renamed => visitor.visit::<crate::Renamed>(state),
            Sample::Inner => visitor.visit::<crate::Inner>(state),
            Sample::SimpleEnum => visitor.visit::<crate::SimpleEnum>(state),
            Sample::ExtEnum => visitor.visit::<crate::ExtEnum>(state),
            Sample::SimpleChoice => visitor.visit::<crate::SimpleChoice>(state),
            Sample::ExtChoice => visitor.visit::<crate::ExtChoice>(state),
            Sample::OldPart => visitor.visit::<crate::OldPart>(state),
            Sample::NewPart => visitor.visit::<crate::NewPart>(state),
            Sample::Nested => visitor.visit::<crate::Nested>(state),
            Sample::Struct => visitor.visit::<crate::Struct>(state),
            Sample::TestTypeA => visitor.visit::<crate::TestTypeA>(state),
            Sample::Very => visitor.visit::<crate::Very>(state),
            Sample::Defaulted => visitor.visit::<crate::Defaulted>(state),
            Sample::MarkSet => visitor.visit::<crate::MarkSet>(state),
            Sample::OldReport => visitor.visit::<crate::OldReport>(state),
            Sample::NewReport => visitor.visit::<crate::NewReport>(state),
            Sample::OldMode => visitor.visit::<crate::OldMode>(state),
            Sample::NewMode => visitor.visit::<crate::NewMode>(state),
            Sample::OldTree => visitor.visit::<crate::OldTree>(state),
            Sample::NewTree => visitor.visit::<crate::NewTree>(state),
            Sample::WithNullOpt => visitor.visit::<crate::WithNullOpt>(state),
            Sample::ConstrainedBitString => visitor.visit::<crate::ConstrainedBitString>(state),
            Sample::ExtensibleBitString => visitor.visit::<crate::ExtensibleBitString>(state),
            Sample::ExtensibleBitStringField => {
                visitor.visit::<crate::ExtensibleBitStringField>(state)
            }
            Sample::Nest => visitor.visit::<crate::Nest>(state),
        }
    }

    /// Returns the shape of the type, as a value that a program holds.
    ///
    /// # Errors
    ///
    /// `OutOfMemory` alone.
    pub fn shape(self, alloc: Global) -> Result<Shape, OutOfMemory>
        ensures is { IfOk result (λ s. shape_view s ≡ sample_shape self) }
        ensures readable { IfOk result (λ s. is_readable (shape_view s) ≡ true) }
        ensures few { IfOk result (λ s. node_count (shape_view s) < 2 ^ 32) }
    {
        self.accept(ShapeOf { alloc }, &mut ())
    }
}

/// Returns the sample type of that name among those that need no description.
fn plain_named(name: &str) -> Option<Sample>
    ensures { result ≡ sample_beside plain_samples name.now }
{
    match name {
        "bool" => Some(Sample::Bool),
        "Null" => Some(Sample::Null),
        "u8" => Some(Sample::U8),
        "i64" => Some(Sample::I64),
        "u64" => Some(Sample::U64),
        "u128" => Some(Sample::U128),
        "Integer" => Some(Sample::Integer),
        "Utf8String" => Some(Sample::Utf8String),
        "NumericString" => Some(Sample::NumericString),
        "PrintableString" => Some(Sample::PrintableString),
        "VisibleString" => Some(Sample::VisibleString),
        "Ia5String" => Some(Sample::Ia5String),
        "GeneralString" => Some(Sample::GeneralString),
        "GraphicString" => Some(Sample::GraphicString),
        "BmpString" => Some(Sample::BmpString),
        "UniversalString" => Some(Sample::UniversalString),
        "UtcTime" => Some(Sample::UtcTime),
        "GeneralizedTime" => Some(Sample::GeneralizedTime),
        "Date" => Some(Sample::Date),
        "SequenceOf<u8>" => Some(Sample::SequenceOfU8),
        "SequenceOf<i64>" => Some(Sample::SequenceOfI64),
        "SequenceOf<bool>" => Some(Sample::SequenceOfBool),
        "SequenceOf<SimpleChoice>" => Some(Sample::SequenceOfSimpleChoice),
        "SetOf<u8>" => Some(Sample::SetOfU8),
        "OctetString" => Some(Sample::OctetString),
        "BitString" => Some(Sample::BitString),
        "Any" => Some(Sample::Any),
        "ObjectIdentifier" => Some(Sample::ObjectIdentifier),
        "Document" => Some(Sample::Document),
        _ => None,
    }
}

/// Returns the sample type of that name among those that are described.
fn described_named(name: &str) -> Option<Sample>
    ensures { result ≡ sample_beside described_samples name.now }
{
    match name {
        "Renamed" => Some(Sample::Renamed),
        "Inner" => Some(Sample::Inner),
        "SimpleEnum" => Some(Sample::SimpleEnum),
        "ExtEnum" => Some(Sample::ExtEnum),
        "SimpleChoice" => Some(Sample::SimpleChoice),
        "ExtChoice" => Some(Sample::ExtChoice),
        "OldPart" => Some(Sample::OldPart),
        "NewPart" => Some(Sample::NewPart),
        "Nested" => Some(Sample::Nested),
        "Struct" => Some(Sample::Struct),
        "TestTypeA" => Some(Sample::TestTypeA),
        "Very" => Some(Sample::Very),
        "Defaulted" => Some(Sample::Defaulted),
        "MarkSet" => Some(Sample::MarkSet),
        "OldReport" => Some(Sample::OldReport),
        "NewReport" => Some(Sample::NewReport),
        "OldMode" => Some(Sample::OldMode),
        "NewMode" => Some(Sample::NewMode),
        "OldTree" => Some(Sample::OldTree),
        "NewTree" => Some(Sample::NewTree),
        "WithNullOpt" => Some(Sample::WithNullOpt),
        "ConstrainedBitString" => Some(Sample::ConstrainedBitString),
        "ExtensibleBitString" => Some(Sample::ExtensibleBitString),
        "ExtensibleBitStringField" => Some(Sample::ExtensibleBitStringField),
        "Nest" => Some(Sample::Nest),
        _ => None,
    }
}

/// Asks a type for its shape, as a visitor that changes nothing.
#[derive(Drop)]
struct ShapeOf {
    /// Allocates the parts of the shape.
    alloc: Global,
}

/// Returns the shape of each type that it is run at.
impl SampleVisitor<()> for ShapeOf {
    type Output = Result<Shape, OutOfMemory>;

    ghost visits = { λ visitor shape old new result. IfOk result (λ s. shape_view s ≡ shape) };

    fn visit<T: Encode + Decode>(self, _state: &mut ()) -> Result<Shape, OutOfMemory> {
        T::shape(self.alloc)
    }
}

/// Returns the shape of the sample type of that name, or `None` where no sample type has it. Names
/// are those of the program's request line, as `SequenceOf<u8>`; case counts.
///
/// # Errors
///
/// `OutOfMemory` alone.
pub fn shape_of(alloc: Global, name: &str) -> Result<Option<Shape>, OutOfMemory>
    ensures is { IfOk result (λ found.
        option_map shape_view found ≡ option_map sample_shape (sample_named name.now)) }
    ensures readable { IfOk result (λ found.
        IfSome found (λ s. is_readable (shape_view s) ≡ true)) }
    ensures few { IfOk result (λ found. IfSome found (λ s. node_count (shape_view s) < 2 ^ 32)) }
{
    match Sample::named(name) {
        Some(sample) => Ok(Some(sample.shape(alloc)?)),
        None => Ok(None),
    }
}

/// Returns whether a sample type has that name.
pub fn is_sample_name(name: &str) -> bool
    ensures { result ≡ is_some (sample_named name.now) }
{
    Sample::named(name).is_some()
}
