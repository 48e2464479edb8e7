//! Defines a SEQUENCE of one field, a bit string whose size isn't fixed.
ghost use Rattle.asn_sample_fields.specs.ExtensibleBitStringField.{bit_string_fields, bit_string_slots};
ghost use Rattle.std.specs.Prelude.{refl};

use crate::MarkedBitString;
use asn_core::{OutOfMemory, Tag};
use asn_fault::{DecodeError, EncodeError};
use asn_fields::{FieldShapes, read_field, write_field};
use asn_traits::{
    Decoder, Encoder, Field, FieldNames, OfKind, SequenceFields, SequenceKind, Shape, required,
};
use std::alloc::Global;

/// `ExtensibleBitStringField ::= SEQUENCE { bits BIT STRING (SIZE(3), ...) }`
#[derive(Debug, PartialEq, Eq, Drop)]
pub struct ExtensibleBitStringField {
    /// Holds the field.
    pub bits: MarkedBitString,
}

/// The one field.
const BIT_STRING_FIELDS: &'static [Field] = &[required!(0, Tag::CONTEXT_0, "bits")];

impl OfKind for ExtensibleBitStringField {
    type Kind = SequenceKind;
}

impl SequenceFields for ExtensibleBitStringField {
    const ROWS: &'static [Field] = BIT_STRING_FIELDS;

    ghost fields = { bit_string_fields };

    ghost slots = { bit_string_slots };

    fn listed() -> &'static [Field] {
        Self::ROWS
    }

    fn listed_added() -> Option<&'static [Field]> {
        None
    }

    fn sequence_shape(alloc: Global) -> Result<Shape, OutOfMemory> {
        let mut fields = FieldShapes::new(alloc);
        fields.required::<MarkedBitString>("bits", Tag::CONTEXT_0)?;
        Ok(fields.sequence())
    }

    fn write_fields<E: Encoder>(&self, encoder: &mut E) -> Result<(), EncodeError> {
        write_field(encoder, &self.bits)?;
        Ok(())
    }

    fn read_fields<D: Decoder>(
        decoder: &mut D,
        names: &mut FieldNames,
    ) -> Result<ExtensibleBitStringField, DecodeError> {
        Ok(ExtensibleBitStringField {
            bits: read_field(decoder, names)?,
        })
    }

    ghost readable = { refl };
}
