//! Describes a SEQUENCE without fields.
ghost use Rattle.asn_sample_fields.specs.Blank.{blank_slots};
ghost use Rattle.asn_traits.specs.Shape.{FieldAdditions, Fields};
ghost use Rattle.std.specs.Prelude.{refl};

use asn_core::OutOfMemory;
use asn_fault::{DecodeError, EncodeError};
use asn_fields::FieldShapes;
use asn_traits::{
    Decoder, Encoder, Field, FieldNames, OfKind, SequenceFields, SequenceKind, Shape,
};
use std::alloc::Global;

/// Is `Blank ::= SEQUENCE {}`. The program has no name for it.
#[derive(Debug, PartialEq, Eq, Drop)]
pub struct Blank;

/// Lists no fields.
const BLANK_FIELDS: &'static [Field] = &[];

/// Is a SEQUENCE.
impl OfKind for Blank {
    type Kind = SequenceKind;
}

/// Describes the fields, of which there are none.
impl SequenceFields for Blank {
    const ROWS: &'static [Field] = BLANK_FIELDS;

    ghost fields = { Fields.no_fields };

    ghost slots = { blank_slots };

    fn listed() -> &'static [Field] {
        Self::ROWS
    }

    fn listed_added() -> Option<&'static [Field]> {
        None
    }

    fn sequence_shape(alloc: Global) -> Result<Shape, OutOfMemory> {
        Ok(FieldShapes::new(alloc).sequence())
    }

    fn write_fields<E: Encoder>(&self, _encoder: &mut E) -> Result<(), EncodeError> {
        Ok(())
    }

    fn read_fields<D: Decoder>(
        _decoder: &mut D,
        _names: &mut FieldNames,
    ) -> Result<Blank, DecodeError> {
        Ok(Blank)
    }

    ghost readable = { refl };
}
