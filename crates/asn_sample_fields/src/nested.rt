//! Describes a SEQUENCE that holds another, both of its fields OPTIONAL.
ghost use Rattle.asn_sample_fields.specs.Nested.{nested_fields, nested_slots};
ghost use Rattle.std.specs.Prelude.{refl};

use crate::Struct;
use asn_core::{OutOfMemory, Tag};
use asn_fault::{DecodeError, EncodeError};
use asn_fields::{FieldShapes, read_optional_field, write_optional_field};
use asn_traits::{
    Decoder, Encoder, Field, FieldNames, OfKind, SequenceFields, SequenceKind, Shape, optional,
};
use std::alloc::Global;

/// Is `Nested ::= SEQUENCE { very Struct OPTIONAL, nested BOOLEAN OPTIONAL }`.
#[derive(Debug, PartialEq, Eq, Drop)]
pub struct Nested {
    /// Holds another SEQUENCE, if it is present.
    pub very: Option<Struct>,
    /// Holds a BOOLEAN, if it is present.
    pub nested: Option<bool>,
}

/// Lists the fields for code that runs. A field whose type is a SEQUENCE has a row like any other.
const NESTED_FIELDS: &'static [Field] = &[
    optional!(0, Tag::CONTEXT_0, "very"),
    optional!(1, Tag::CONTEXT_1, "nested"),
];

/// Is a SEQUENCE.
impl OfKind for Nested {
    type Kind = SequenceKind;
}

/// Describes the fields. The encoding of `very` is that of its own type, within this one's slot.
impl SequenceFields for Nested {
    const ROWS: &'static [Field] = NESTED_FIELDS;

    ghost fields = { nested_fields };

    ghost slots = { nested_slots };

    fn listed() -> &'static [Field] {
        Self::ROWS
    }

    fn listed_added() -> Option<&'static [Field]> {
        None
    }

    fn sequence_shape(alloc: Global) -> Result<Shape, OutOfMemory> {
        let mut fields = FieldShapes::new(alloc);
        fields.optional::<Struct>("very", Tag::CONTEXT_0)?;
        fields.optional::<bool>("nested", Tag::CONTEXT_1)?;
        Ok(fields.sequence())
    }

    fn write_fields<E: Encoder>(&self, encoder: &mut E) -> Result<(), EncodeError> {
        write_optional_field(encoder, &self.very)?;
        write_optional_field(encoder, &self.nested)?;
        Ok(())
    }

    fn read_fields<D: Decoder>(
        decoder: &mut D,
        names: &mut FieldNames,
    ) -> Result<Nested, DecodeError> {
        Ok(Nested {
            very: read_optional_field(decoder, names)?,
            nested: read_optional_field(decoder, names)?,
        })
    }

    ghost readable = { refl };
}
