//! Describes a SEQUENCE whose fields have other names than the Rust fields, as a hyphen can't
//! stand in a name of Rust.
ghost use Rattle.asn_sample_fields.specs.Renamed.{renamed_fields, renamed_slots};
ghost use Rattle.std.specs.Prelude.{refl};

use asn_core::{Integer, OutOfMemory, Tag};
use asn_fault::{DecodeError, EncodeError};
use asn_fields::{FieldShapes, read_field, read_optional_field, write_field, write_optional_field};
use asn_traits::{
    Decoder, Encoder, Field, FieldNames, OfKind, SequenceFields, SequenceKind, Shape, optional,
    required,
};
use std::alloc::Global;

/// Is `Renamed ::= SEQUENCE { so-very INTEGER, re_named BOOLEAN OPTIONAL }`.
#[derive(Debug, PartialEq, Eq, Drop)]
pub struct Renamed {
    /// Holds the field `so-very`.
    pub so_very: Integer,
    /// Holds the field `re_named`, if it is present.
    pub re_named: Option<bool>,
}

/// Lists the fields by their names in ASN.1, which texts have and errors print.
const RENAMED_FIELDS: &'static [Field] = &[
    required!(0, Tag::CONTEXT_0, "so-very"),
    optional!(1, Tag::CONTEXT_1, "re_named"),
];

/// Is a SEQUENCE.
impl OfKind for Renamed {
    type Kind = SequenceKind;
}

/// Describes the fields. Names stand in the table, the shape and the definitions alone: reading
/// and writing go by the order of the fields.
impl SequenceFields for Renamed {
    const ROWS: &'static [Field] = RENAMED_FIELDS;

    ghost fields = { renamed_fields };

    ghost slots = { renamed_slots };

    fn listed() -> &'static [Field] {
        Self::ROWS
    }

    fn listed_added() -> Option<&'static [Field]> {
        None
    }

    fn sequence_shape(alloc: Global) -> Result<Shape, OutOfMemory> {
        let mut fields = FieldShapes::new(alloc);
        fields.required::<Integer>("so-very", Tag::CONTEXT_0)?;
        fields.optional::<bool>("re_named", Tag::CONTEXT_1)?;
        Ok(fields.sequence())
    }

    fn write_fields<E: Encoder>(&self, encoder: &mut E) -> Result<(), EncodeError> {
        write_field(encoder, &self.so_very)?;
        write_optional_field(encoder, &self.re_named)?;
        Ok(())
    }

    fn read_fields<D: Decoder>(
        decoder: &mut D,
        names: &mut FieldNames,
    ) -> Result<Renamed, DecodeError> {
        Ok(Renamed {
            so_very: read_field(decoder, names)?,
            re_named: read_optional_field(decoder, names)?,
        })
    }

    ghost readable = { refl };
}
