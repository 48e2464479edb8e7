//! Describes a SEQUENCE with an extension addition: the type of the program's texts.
ghost use Rattle.example_convert.specs.Alarm.{alarm_added, alarm_fields, alarm_slots};
ghost use Rattle.std.specs.Prelude.{refl};

use crate::origin::Origin;
use crate::setting::Setting;
use asn_base::{GeneralizedTime, OutOfMemory, Tag};
use asn_fault::{DecodeError, EncodeError};
use asn_fields::{FieldShapes, read_field, read_optional_field, write_field, write_optional_field};
use asn_traits::{
    Decoder, Encoder, Field, FieldNames, OfKind, SequenceFields, SequenceKind, Shape, optional,
    required,
};
use std::alloc::Global;

/// Is `Alarm ::= SEQUENCE { id INTEGER (0..4294967295), raised GeneralizedTime, origin Origin,
/// setting Setting, ..., note UTF8String OPTIONAL }`.
#[derive(Debug, PartialEq, Eq, Drop)]
pub struct Alarm {
    /// Holds the number of the alarm.
    pub id: u32,
    /// Holds when it was raised.
    pub raised: GeneralizedTime,
    /// Holds who or what raised it.
    pub origin: Origin,
    /// Holds what it is about.
    pub setting: Setting,
    /// Holds the extension addition, if it is present.
    pub note: Option<String>,
}

/// Lists the fields of the root.
const ALARM_FIELDS: &'static [Field] = &[
    required!(0, Tag::CONTEXT_0, "id"),
    required!(1, Tag::CONTEXT_1, "raised"),
    required!(2, Tag::CONTEXT_2, "origin"),
    required!(3, Tag::CONTEXT_3, "setting"),
];

/// Lists the extension additions, whose places go on from those of the root.
const ALARM_ADDED: &'static [Field] = &[optional!(4, Tag::CONTEXT_4, "note")];

impl OfKind for Alarm {
    type Kind = SequenceKind;
}

/// Describes the fields, extension additions last.
impl SequenceFields for Alarm {
    const ROWS: &'static [Field] = ALARM_FIELDS;

    const ADDED: Option<&'static [Field]> = Some(ALARM_ADDED);

    ghost fields = { alarm_fields };

    ghost added = { alarm_added };

    ghost slots = { alarm_slots };

    fn listed() -> &'static [Field] {
        Self::ROWS
    }

    fn listed_added() -> Option<&'static [Field]> {
        Self::ADDED
    }

    fn sequence_shape(alloc: Global) -> Result<Shape, OutOfMemory> {
        let mut fields = FieldShapes::new(alloc);
        fields.required::<u32>("id", Tag::CONTEXT_0)?;
        fields.required::<GeneralizedTime>("raised", Tag::CONTEXT_1)?;
        fields.required::<Origin>("origin", Tag::CONTEXT_2)?;
        fields.required::<Setting>("setting", Tag::CONTEXT_3)?;
        let mut added = FieldShapes::new(alloc);
        added.optional::<String>("note", Tag::CONTEXT_4)?;
        Ok(fields.extensible_sequence(added))
    }

    fn write_fields<E: Encoder>(&self, encoder: &mut E) -> Result<(), EncodeError> {
        write_field(encoder, &self.id)?;
        write_field(encoder, &self.raised)?;
        write_field(encoder, &self.origin)?;
        write_field(encoder, &self.setting)?;
        write_optional_field(encoder, &self.note)?;
        Ok(())
    }

    fn read_fields<D: Decoder>(
        decoder: &mut D,
        names: &mut FieldNames,
    ) -> Result<Alarm, DecodeError> {
        Ok(Alarm {
            id: read_field(decoder, names)?,
            raised: read_field(decoder, names)?,
            origin: read_field(decoder, names)?,
            setting: read_field(decoder, names)?,
            note: read_optional_field(decoder, names)?,
        })
    }

    ghost readable = { refl };
}
