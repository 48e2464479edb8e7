//! Describes a SEQUENCE (X.680, section 25): the sample to copy for one without extension
//! additions. Its NULL shows that a field which is present differs from an absent one, though
//! NULL has one value alone.
ghost use Rattle.asn_sample_fields.specs.WithNullOpt.{with_null_opt_fields, with_null_opt_slots};
ghost use Rattle.std.specs.Prelude.{refl};

use asn_core::{OutOfMemory, Tag};
use asn_fault::{DecodeError, EncodeError};
use asn_fields::{FieldShapes, read_field, read_optional_field, write_field, write_optional_field};
use asn_traits::{
    Decoder, Encoder, Field, FieldNames, OfKind, SequenceFields, SequenceKind, Shape, optional,
    required,
};
use std::alloc::Global;

/// Is `WithNullOpt ::= SEQUENCE { name UTF8String, flag NULL OPTIONAL }`.
#[derive(Debug, PartialEq, Eq, Drop)]
pub struct WithNullOpt {
    /// Holds a text, which has to be present.
    pub name: String,
    /// Holds a NULL, if it is present. In JSON, a field of `null` is present.
    pub flag: Option<()>,
}

/// Lists the fields for code that runs: place, tag and name, in the order of declaration.
const WITH_NULL_OPT_FIELDS: &'static [Field] = &[
    required!(0, Tag::CONTEXT_0, "name"),
    optional!(1, Tag::CONTEXT_1, "flag"),
];

/// Is a SEQUENCE: this gives it the traits that the library has for each SEQUENCE.
impl OfKind for WithNullOpt {
    type Kind = SequenceKind;
}

/// Describes the fields, and encodes and decodes each.
impl SequenceFields for WithNullOpt {
    const ROWS: &'static [Field] = WITH_NULL_OPT_FIELDS;

    // The definitions that contracts cite; the calls below are proved to agree with them.
    ghost fields = { with_null_opt_fields };

    ghost slots = { with_null_opt_slots };

    // A clause can't name a constant that holds a reference, so a call hands it over.
    fn listed() -> &'static [Field] {
        Self::ROWS
    }

    // `None` means that there is no extension marker.
    fn listed_added() -> Option<&'static [Field]> {
        None
    }

    // The shape as a value, one call a field.
    fn sequence_shape(alloc: Global) -> Result<Shape, OutOfMemory> {
        let mut fields = FieldShapes::new(alloc);
        fields.required::<String>("name", Tag::CONTEXT_0)?;
        fields.optional::<()>("flag", Tag::CONTEXT_1)?;
        Ok(fields.sequence())
    }

    // One slot a field, in order; `write_optional_field` adds an absent one for `None`.
    fn write_fields<E: Encoder>(&self, encoder: &mut E) -> Result<(), EncodeError> {
        write_field(encoder, &self.name)?;
        write_optional_field(encoder, &self.flag)?;
        Ok(())
    }

    // The fields are read in the order in which they are written here, whatever their order in the
    // text was. Each call takes the first of `names`, under which it refuses.
    fn read_fields<D: Decoder>(
        decoder: &mut D,
        names: &mut FieldNames,
    ) -> Result<WithNullOpt, DecodeError> {
        Ok(WithNullOpt {
            name: read_field(decoder, names)?,
            flag: read_optional_field(decoder, names)?,
        })
    }

    // The law that the shape can be read, which is computed.
    ghost readable = { refl };
}
