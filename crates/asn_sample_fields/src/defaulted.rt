//! Describes a SEQUENCE whose field has a default: the sample to copy for one with DEFAULT.
ghost use Rattle.asn_sample_fields.specs.Defaulted.{defaulted_fields, defaulted_slots};
ghost use Rattle.std.specs.Prelude.{refl};

use asn_core::{Integer, OutOfMemory, Tag};
use asn_fault::{DecodeError, EncodeError};
use asn_fields::{FieldShapes, read_default_field, write_default_field};
use asn_traits::{
    Decoder, Encoder, Field, FieldNames, OfKind, Plain, SequenceFields, SequenceKind, Shape,
    with_default,
};
use std::alloc::Global;

/// Is `Defaulted ::= SEQUENCE { level INTEGER DEFAULT 5 }`.
#[derive(Debug, PartialEq, Eq, Drop)]
pub struct Defaulted {
    /// Holds a number, which is 5 where the field is absent. It is left out where it is 5.
    pub level: Integer,
}

/// Is the default of `level`.
const LEVEL: Integer = 5;

/// Lists the fields.
const DEFAULTED_FIELDS: &'static [Field] = &[with_default!(0, Tag::CONTEXT_0, "level")];

/// Is a SEQUENCE.
impl OfKind for Defaulted {
    type Kind = SequenceKind;
}

/// Describes the fields.
impl SequenceFields for Defaulted {
    const ROWS: &'static [Field] = DEFAULTED_FIELDS;

    ghost fields = { defaulted_fields };

    ghost slots = { defaulted_slots };

    fn listed() -> &'static [Field] {
        Self::ROWS
    }

    fn listed_added() -> Option<&'static [Field]> {
        None
    }

    fn sequence_shape(alloc: Global) -> Result<Shape, OutOfMemory> {
        let mut fields = FieldShapes::new(alloc);
        fields.with_default::<Integer>("level", Tag::CONTEXT_0, Plain::Int(LEVEL))?;
        Ok(fields.sequence())
    }

    fn write_fields<E: Encoder>(&self, encoder: &mut E) -> Result<(), EncodeError> {
        write_default_field(encoder, &self.level, self.level == LEVEL)?;
        Ok(())
    }

    fn read_fields<D: Decoder>(
        decoder: &mut D,
        names: &mut FieldNames,
    ) -> Result<Defaulted, DecodeError> {
        Ok(Defaulted {
            level: read_default_field(decoder, names, LEVEL)?,
        })
    }

    ghost readable = { refl };
}
