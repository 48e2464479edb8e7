//! Describes a SET (X.680, section 27) with an extension marker: the sample to copy for one.
ghost use Rattle.asn_by_hand.specs.GrowingSet.{growing_set_added, growing_set_fields};
ghost use Rattle.asn_by_hand.specs.GrowingSet.{growing_set_slots};
ghost use Rattle.std.specs.Prelude.{refl};

use asn_core::{OutOfMemory, Tag};
use asn_fault::{DecodeError, EncodeError};
use asn_fields::{FieldShapes, read_field, read_optional_field, write_field, write_optional_field};
use asn_traits::{
    Decoder, Encoder, Field, FieldNames, OfKind, SequenceFields, SetKind, Shape, optional, required,
};
use std::alloc::Global;

/// Is `GrowingSet ::= SET { mark [1] INTEGER (-2^63..2^63-1), note [0] UTF8String OPTIONAL, ...,
/// extra [2] BOOLEAN OPTIONAL }`.
#[derive(Debug, PartialEq, Eq, Drop)]
pub struct GrowingSet {
    /// Holds a number.
    pub mark: i64,
    /// Holds a text, if it is present.
    pub note: Option<String>,
    /// Holds the extension addition, if it is present.
    pub extra: Option<bool>,
}

/// Lists the fields of the root as they are declared, each with its own tag.
const GROWING_SET_FIELDS: &'static [Field] = &[
    required!(0, Tag::CONTEXT_1, "mark"),
    optional!(1, Tag::CONTEXT_0, "note"),
];

/// Lists the extension addition, whose place goes on from those of the root.
const GROWING_SET_ADDED: &'static [Field] = &[optional!(2, Tag::CONTEXT_2, "extra")];

/// Is a SET.
impl OfKind for GrowingSet {
    type Kind = SetKind;
}

/// Describes the fields, the extension addition last.
impl SequenceFields for GrowingSet {
    const ROWS: &'static [Field] = GROWING_SET_FIELDS;

    const ADDED: Option<&'static [Field]> = Some(GROWING_SET_ADDED);

    ghost fields = { growing_set_fields };

    ghost added = { growing_set_added };

    ghost slots = { growing_set_slots };

    fn listed() -> &'static [Field] {
        Self::ROWS
    }

    fn listed_added() -> Option<&'static [Field]> {
        Self::ADDED
    }

    fn sequence_shape(alloc: Global) -> Result<Shape, OutOfMemory> {
        let mut fields = FieldShapes::new(alloc);
        fields.required::<i64>("mark", Tag::CONTEXT_1)?;
        fields.optional::<String>("note", Tag::CONTEXT_0)?;
        let mut added = FieldShapes::new(alloc);
        added.optional::<bool>("extra", Tag::CONTEXT_2)?;
        Ok(fields.extensible_set(added))
    }

    // The fields as they are declared: tags decide nothing here.
    fn write_fields<E: Encoder>(&self, encoder: &mut E) -> Result<(), EncodeError> {
        write_field(encoder, &self.mark)?;
        write_optional_field(encoder, &self.note)?;
        write_optional_field(encoder, &self.extra)?;
        Ok(())
    }

    // The fields of the root by their tags, of which `note` has the smaller one, and then the
    // extension addition.
    fn read_fields<D: Decoder>(
        decoder: &mut D,
        names: &mut FieldNames,
    ) -> Result<GrowingSet, DecodeError> {
        Ok(GrowingSet {
            note: read_optional_field(decoder, names)?,
            mark: read_field(decoder, names)?,
            extra: read_optional_field(decoder, names)?,
        })
    }

    ghost readable = { refl };
}
