//! Describes a SEQUENCE without fields in its root, whose one field is an extension addition.
ghost use Rattle.asn_sample_fields.specs.Very.{very_added, very_slots};
ghost use Rattle.asn_traits.specs.Shape.{Fields};
ghost use Rattle.std.specs.Prelude.{refl};

use crate::Nested;
use asn_core::{OutOfMemory, Tag};
use asn_fault::{DecodeError, EncodeError};
use asn_fields::{FieldShapes, read_optional_field, write_optional_field};
use asn_traits::{
    Decoder, Encoder, Field, FieldNames, OfKind, SequenceFields, SequenceKind, Shape, optional,
};
use std::alloc::Global;

/// Is `Very ::= SEQUENCE { ..., a Nested OPTIONAL }`.
#[derive(Debug, PartialEq, Eq, Drop)]
pub struct Very {
    /// Holds the extension addition, if it is present.
    pub a: Option<Nested>,
}

/// Lists the fields of the root.
const VERY_FIELDS: &'static [Field] = &[];

/// Lists the extension additions.
const VERY_ADDED: &'static [Field] = &[optional!(0, Tag::CONTEXT_0, "a")];

/// Is a SEQUENCE.
impl OfKind for Very {
    type Kind = SequenceKind;
}

/// Describes the fields.
impl SequenceFields for Very {
    const ROWS: &'static [Field] = VERY_FIELDS;

    const ADDED: Option<&'static [Field]> = Some(VERY_ADDED);

    ghost fields = { Fields.no_fields };

    ghost added = { very_added };

    ghost slots = { very_slots };

    fn listed() -> &'static [Field] {
        Self::ROWS
    }

    fn listed_added() -> Option<&'static [Field]> {
        Self::ADDED
    }

    fn sequence_shape(alloc: Global) -> Result<Shape, OutOfMemory> {
        let mut added = FieldShapes::new(alloc);
        added.optional::<Nested>("a", Tag::CONTEXT_0)?;
        Ok(FieldShapes::new(alloc).extensible_sequence(added))
    }

    fn write_fields<E: Encoder>(&self, encoder: &mut E) -> Result<(), EncodeError> {
        write_optional_field(encoder, &self.a)?;
        Ok(())
    }

    fn read_fields<D: Decoder>(
        decoder: &mut D,
        names: &mut FieldNames,
    ) -> Result<Very, DecodeError> {
        Ok(Very {
            a: read_optional_field(decoder, names)?,
        })
    }

    ghost readable = { refl };
}
