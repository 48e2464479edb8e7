//! Describes a SEQUENCE with a SET OF, and with an extension marker that no addition follows yet.
ghost use Rattle.asn_sample_choices.specs.OldReport.{old_report_fields, old_report_slots};
ghost use Rattle.asn_traits.specs.Shape.{FieldAdditions, Fields};
ghost use Rattle.std.specs.Prelude.{refl};

use crate::OldPart;
use asn_core::{Integer, OutOfMemory, Tag};
use asn_fault::{DecodeError, EncodeError};
use asn_fields::{FieldShapes, read_field, write_field};
use asn_sets::SetOf;
use asn_traits::{
    Decoder, Encoder, Field, FieldNames, OfKind, SequenceFields, SequenceKind, Shape, required,
};
use std::alloc::Global;

/// Is `OldReport ::= SEQUENCE { id INTEGER, parts SET OF OldPart, ... }`.
#[derive(PartialEq, Eq, Drop)]
pub struct OldReport {
    /// Holds a number.
    pub id: Integer,
    /// Holds the parts, whose order is of no account.
    pub parts: SetOf<OldPart>,
}

/// Lists the fields of the root.
const OLD_REPORT_FIELDS: &'static [Field] = &[
    required!(0, Tag::CONTEXT_0, "id"),
    required!(1, Tag::CONTEXT_1, "parts"),
];

/// Lists the extension additions.
const OLD_REPORT_ADDED: &'static [Field] = &[];

/// Is a SEQUENCE.
impl OfKind for OldReport {
    type Kind = SequenceKind;
}

/// Describes the fields.
impl SequenceFields for OldReport {
    const ROWS: &'static [Field] = OLD_REPORT_FIELDS;

    const ADDED: Option<&'static [Field]> = Some(OLD_REPORT_ADDED);

    ghost fields = { old_report_fields };

    ghost added = { FieldAdditions.extended_fields Fields.no_fields };

    ghost slots = { old_report_slots };

    fn listed() -> &'static [Field] {
        Self::ROWS
    }

    fn listed_added() -> Option<&'static [Field]> {
        Self::ADDED
    }

    fn sequence_shape(alloc: Global) -> Result<Shape, OutOfMemory> {
        let mut fields = FieldShapes::new(alloc);
        fields.required::<Integer>("id", Tag::CONTEXT_0)?;
        fields.required::<SetOf<OldPart>>("parts", Tag::CONTEXT_1)?;
        Ok(fields.extensible_sequence(FieldShapes::new(alloc)))
    }

    fn write_fields<E: Encoder>(&self, encoder: &mut E) -> Result<(), EncodeError> {
        write_field(encoder, &self.id)?;
        write_field(encoder, &self.parts)?;
        Ok(())
    }

    fn read_fields<D: Decoder>(
        decoder: &mut D,
        names: &mut FieldNames,
    ) -> Result<OldReport, DecodeError> {
        Ok(OldReport {
            id: read_field(decoder, names)?,
            parts: read_field(decoder, names)?,
        })
    }

    ghost readable = { refl };
}
