//! Describes a SET, whose fields are read in the order of their tags: the sample to copy for one.
ghost use Rattle.asn_sample_fields.specs.MarkSet.{mark_set_fields, mark_set_slots};
ghost use Rattle.std.specs.Prelude.{refl};

use asn_core::{OutOfMemory, Tag};
use asn_fault::{DecodeError, EncodeError};
use asn_fields::{FieldShapes, read_field, read_optional_field, write_field, write_optional_field};
use asn_traits::{
    Decoder, Encoder, Field, FieldNames, OfKind, SequenceFields, SetKind, Shape, optional, required,
};
use std::alloc::Global;

/// Is `MarkSet ::= SET { mark [1] INTEGER (-2^63..2^63-1), note [0] UTF8String OPTIONAL }`.
#[derive(Debug, PartialEq, Eq, Drop)]
pub struct MarkSet {
    /// Holds a number.
    pub mark: i64,
    /// Holds a text, if it is present.
    pub note: Option<String>,
}

/// Lists the fields as they are declared, each with its own tag.
const MARK_SET_FIELDS: &'static [Field] = &[
    required!(0, Tag::CONTEXT_1, "mark"),
    optional!(1, Tag::CONTEXT_0, "note"),
];

/// Is a SET.
impl OfKind for MarkSet {
    type Kind = SetKind;
}

/// Describes the fields.
impl SequenceFields for MarkSet {
    const ROWS: &'static [Field] = MARK_SET_FIELDS;

    ghost fields = { mark_set_fields };

    ghost slots = { mark_set_slots };

    fn listed() -> &'static [Field] {
        Self::ROWS
    }

    fn listed_added() -> Option<&'static [Field]> {
        None
    }

    fn sequence_shape(alloc: Global) -> Result<Shape, OutOfMemory> {
        let mut fields = FieldShapes::new(alloc);
        fields.required::<i64>("mark", Tag::CONTEXT_1)?;
        fields.optional::<String>("note", Tag::CONTEXT_0)?;
        Ok(fields.set())
    }

    // The fields as they are declared: tags decide nothing here.
    fn write_fields<E: Encoder>(&self, encoder: &mut E) -> Result<(), EncodeError> {
        write_field(encoder, &self.mark)?;
        write_optional_field(encoder, &self.note)?;
        Ok(())
    }

    // The fields by their tags: `note` has the smaller one.
    fn read_fields<D: Decoder>(
        decoder: &mut D,
        names: &mut FieldNames,
    ) -> Result<MarkSet, DecodeError> {
        Ok(MarkSet {
            note: read_optional_field(decoder, names)?,
            mark: read_field(decoder, names)?,
        })
    }

    ghost readable = { refl };
}
