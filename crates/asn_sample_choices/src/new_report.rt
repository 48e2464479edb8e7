//! Describes `OldReport` in a later version, which has two extension additions.
ghost use Rattle.asn_sample_choices.specs.NewReport.{new_report_added, new_report_fields};
ghost use Rattle.asn_sample_choices.specs.NewReport.{new_report_slots};
ghost use Rattle.asn_traits.specs.Shape.{FieldAdditions};
ghost use Rattle.std.specs.Prelude.{refl};

use crate::NewPart;
use asn_core::{Integer, OutOfMemory, Tag};
use asn_fault::{DecodeError, EncodeError};
use asn_fields::{
    FieldShapes, read_addition, read_field, read_optional_field, write_field, write_optional_field,
};
use asn_sets::SetOf;
use asn_traits::{
    Decoder, Encoder, Field, FieldNames, OfKind, SequenceFields, SequenceKind, Shape, optional,
    required,
};
use std::alloc::Global;

/// Is `NewReport ::= SEQUENCE { id INTEGER, parts SET OF NewPart, ..., note UTF8String OPTIONAL,
/// owner UTF8String }`.
#[derive(PartialEq, Eq, Drop)]
pub struct NewReport {
    /// Holds a number.
    pub id: Integer,
    /// Holds the parts, whose order is of no account.
    pub parts: SetOf<NewPart>,
    /// Holds an extension addition, if it is present.
    pub note: Option<String>,
    /// Holds an extension addition that has to be present: a text of `OldReport` lacks it, and is
    /// refused with `MissingField`.
    pub owner: String,
}

/// Lists the fields of the root.
const NEW_REPORT_FIELDS: &'static [Field] = &[
    required!(0, Tag::CONTEXT_0, "id"),
    required!(1, Tag::CONTEXT_1, "parts"),
];

/// Lists the extension additions.
const NEW_REPORT_ADDED: &'static [Field] = &[
    optional!(2, Tag::CONTEXT_2, "note"),
    required!(3, Tag::CONTEXT_3, "owner"),
];

/// Is a SEQUENCE.
impl OfKind for NewReport {
    type Kind = SequenceKind;
}

/// Describes the fields, extension additions last.
impl SequenceFields for NewReport {
    const ROWS: &'static [Field] = NEW_REPORT_FIELDS;

    const ADDED: Option<&'static [Field]> = Some(NEW_REPORT_ADDED);

    ghost fields = { new_report_fields };

    ghost added = { FieldAdditions.extended_fields new_report_added };

    ghost slots = { new_report_slots };

    fn listed() -> &'static [Field] {
        Self::ROWS
    }

    fn listed_added() -> Option<&'static [Field]> {
        Self::ADDED
    }

    fn sequence_shape(alloc: Global) -> Result<Shape, OutOfMemory> {
        let mut fields = FieldShapes::new(alloc);
        fields.required::<Integer>("id", Tag::CONTEXT_0)?;
        fields.required::<SetOf<NewPart>>("parts", Tag::CONTEXT_1)?;
        let mut added = FieldShapes::new(alloc);
        added.optional::<String>("note", Tag::CONTEXT_2)?;
        added.required::<String>("owner", Tag::CONTEXT_3)?;
        Ok(fields.extensible_sequence(added))
    }

    fn write_fields<E: Encoder>(&self, encoder: &mut E) -> Result<(), EncodeError> {
        write_field(encoder, &self.id)?;
        write_field(encoder, &self.parts)?;
        write_optional_field(encoder, &self.note)?;
        write_field(encoder, &self.owner)?;
        Ok(())
    }

    fn read_fields<D: Decoder>(
        decoder: &mut D,
        names: &mut FieldNames,
    ) -> Result<NewReport, DecodeError> {
        Ok(NewReport {
            id: read_field(decoder, names)?,
            parts: read_field(decoder, names)?,
            note: read_optional_field(decoder, names)?,
            owner: read_addition(decoder, names)?,
        })
    }

    ghost readable = { refl };
}
