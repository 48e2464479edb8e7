//! Describes a SEQUENCE of one field that may be absent. `Nested` holds it, so its definitions
//! name its shape and its value too.
ghost use Rattle.asn_sample_fields.specs.Struct.{struct_fields, struct_slots};
ghost use Rattle.std.specs.Prelude.{refl};

use asn_core::{OutOfMemory, Tag};
use asn_fault::{DecodeError, EncodeError};
use asn_fields::{FieldShapes, read_optional_field, write_optional_field};
use asn_traits::{
    Decoder, Encoder, Field, FieldNames, OfKind, SequenceFields, SequenceKind, Shape, optional,
};
use std::alloc::Global;

/// Is `Struct ::= SEQUENCE { strct INTEGER (0..255) OPTIONAL }`.
#[derive(Debug, PartialEq, Eq, Drop)]
pub struct Struct {
    /// Holds a number, if it is present.
    pub strct: Option<u8>,
}

/// Lists the one field for code that runs.
const STRUCT_FIELDS: &'static [Field] = &[optional!(0, Tag::CONTEXT_0, "strct")];

/// Is a SEQUENCE.
impl OfKind for Struct {
    type Kind = SequenceKind;
}

/// Describes the field. Where it is absent, the encoding has no field at all.
impl SequenceFields for Struct {
    const ROWS: &'static [Field] = STRUCT_FIELDS;

    ghost fields = { struct_fields };

    ghost slots = { struct_slots };

    fn listed() -> &'static [Field] {
        Self::ROWS
    }

    fn listed_added() -> Option<&'static [Field]> {
        None
    }

    fn sequence_shape(alloc: Global) -> Result<Shape, OutOfMemory> {
        let mut fields = FieldShapes::new(alloc);
        fields.optional::<u8>("strct", Tag::CONTEXT_0)?;
        Ok(fields.sequence())
    }

    fn write_fields<E: Encoder>(&self, encoder: &mut E) -> Result<(), EncodeError> {
        write_optional_field(encoder, &self.strct)?;
        Ok(())
    }

    fn read_fields<D: Decoder>(
        decoder: &mut D,
        names: &mut FieldNames,
    ) -> Result<Struct, DecodeError> {
        Ok(Struct {
            strct: read_optional_field(decoder, names)?,
        })
    }

    ghost readable = { refl };
}
