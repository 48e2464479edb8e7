//! Describes a SEQUENCE, the second field of which has a default that is an item of an ENUMERATED.
ghost use Rattle.example_convert.specs.Setting.{setting_fields, setting_slots};
ghost use Rattle.std.specs.Prelude.{refl};

use crate::severity::Severity;
use asn_base::{OutOfMemory, Tag};
use asn_fault::{DecodeError, EncodeError};
use asn_fields::{FieldShapes, read_default_field, read_field, write_default_field, write_field};
use asn_traits::{
    Decoder, Encoder, Field, FieldNames, OfKind, Plain, SequenceFields, SequenceKind, Shape,
    required, with_default,
};
use std::alloc::Global;

/// Is `Setting ::= SEQUENCE { name UTF8String, severity Severity DEFAULT warning,
/// enabled BOOLEAN }`.
#[derive(Debug, PartialEq, Eq, Drop)]
pub struct Setting {
    /// Holds the name of what is watched.
    pub name: String,
    /// Holds how bad it is, which is left out where it is the default.
    pub severity: Severity,
    /// Holds whether it is watched at present.
    pub enabled: bool,
}

/// Is the default of `severity`.
const SEVERITY: Severity = Severity::Warning;

/// Lists the fields.
const SETTING_FIELDS: &'static [Field] = &[
    required!(0, Tag::CONTEXT_0, "name"),
    with_default!(1, Tag::CONTEXT_1, "severity"),
    required!(2, Tag::CONTEXT_2, "enabled"),
];

impl OfKind for Setting {
    type Kind = SequenceKind;
}

/// Describes the fields.
impl SequenceFields for Setting {
    const ROWS: &'static [Field] = SETTING_FIELDS;

    ghost fields = { setting_fields };

    ghost slots = { setting_slots };

    fn listed() -> &'static [Field] {
        Self::ROWS
    }

    fn listed_added() -> Option<&'static [Field]> {
        None
    }

    fn sequence_shape(alloc: Global) -> Result<Shape, OutOfMemory> {
        let warning = Plain::Item(String::from_str(alloc, "warning")?);
        let mut fields = FieldShapes::new(alloc);
        fields.required::<String>("name", Tag::CONTEXT_0)?;
        fields.with_default::<Severity>("severity", Tag::CONTEXT_1, warning)?;
        fields.required::<bool>("enabled", Tag::CONTEXT_2)?;
        Ok(fields.sequence())
    }

    fn write_fields<E: Encoder>(&self, encoder: &mut E) -> Result<(), EncodeError> {
        write_field(encoder, &self.name)?;
        write_default_field(encoder, &self.severity, self.severity == SEVERITY)?;
        write_field(encoder, &self.enabled)?;
        Ok(())
    }

    fn read_fields<D: Decoder>(
        decoder: &mut D,
        names: &mut FieldNames,
    ) -> Result<Setting, DecodeError> {
        Ok(Setting {
            name: read_field(decoder, names)?,
            severity: read_default_field(decoder, names, SEVERITY)?,
            enabled: read_field(decoder, names)?,
        })
    }

    ghost readable = { refl };
}
