//! Describes the groups of fields of which `Wide` is made. A group has the trait `FieldGroup`
//! alone: its table and its shape are parts of those of `Wide`.
ghost use Rattle.asn_by_hand.specs.Groups.{
  flags_fields,
  flags_slots,
  names_fields,
  names_slots,
  numbers_fields,
  numbers_slots,
};

use asn_fault::{DecodeError, EncodeError};
use asn_fields::{FieldGroup, read_field, read_optional_field, write_field, write_optional_field};
use asn_traits::{Decoder, Encoder, FieldNames};

/// Holds the names of a `Wide`.
#[derive(Debug, PartialEq, Eq, Drop)]
pub struct Names {
    /// Holds the field `family`.
    pub family: String,
    /// Holds the field `given`.
    pub given: String,
    /// Holds the field `nick`, if it is present.
    pub nick: Option<String>,
}

/// Encodes and decodes the three fields.
impl FieldGroup for Names {
    ghost group = { names_fields };

    ghost group_slots = { names_slots };

    fn write_group<E: Encoder>(&self, encoder: &mut E) -> Result<(), EncodeError> {
        write_field(encoder, &self.family)?;
        write_field(encoder, &self.given)?;
        write_optional_field(encoder, &self.nick)?;
        Ok(())
    }

    fn read_group<D: Decoder>(
        decoder: &mut D,
        names: &mut FieldNames,
    ) -> Result<Names, DecodeError> {
        Ok(Names {
            family: read_field(decoder, names)?,
            given: read_field(decoder, names)?,
            nick: read_optional_field(decoder, names)?,
        })
    }
}

/// Holds the numbers of a `Wide`.
#[derive(Debug, PartialEq, Eq, Drop)]
pub struct Numbers {
    /// Holds the field `age`.
    pub age: u8,
    /// Holds the field `code`.
    pub code: i64,
    /// Holds the field `size`, if it is present.
    pub size: Option<u8>,
}

/// Encodes and decodes the three fields.
impl FieldGroup for Numbers {
    ghost group = { numbers_fields };

    ghost group_slots = { numbers_slots };

    fn write_group<E: Encoder>(&self, encoder: &mut E) -> Result<(), EncodeError> {
        write_field(encoder, &self.age)?;
        write_field(encoder, &self.code)?;
        write_optional_field(encoder, &self.size)?;
        Ok(())
    }

    fn read_group<D: Decoder>(
        decoder: &mut D,
        names: &mut FieldNames,
    ) -> Result<Numbers, DecodeError> {
        Ok(Numbers {
            age: read_field(decoder, names)?,
            code: read_field(decoder, names)?,
            size: read_optional_field(decoder, names)?,
        })
    }
}

/// Holds the flags of a `Wide`.
#[derive(Debug, PartialEq, Eq, Drop)]
pub struct Flags {
    /// Holds the field `active`.
    pub active: bool,
    /// Holds the field `hidden`, if it is present.
    pub hidden: Option<bool>,
    /// Holds the field `mark`, if it is present.
    pub mark: Option<()>,
}

/// Encodes and decodes the three fields.
impl FieldGroup for Flags {
    ghost group = { flags_fields };

    ghost group_slots = { flags_slots };

    fn write_group<E: Encoder>(&self, encoder: &mut E) -> Result<(), EncodeError> {
        write_field(encoder, &self.active)?;
        write_optional_field(encoder, &self.hidden)?;
        write_optional_field(encoder, &self.mark)?;
        Ok(())
    }

    fn read_group<D: Decoder>(
        decoder: &mut D,
        names: &mut FieldNames,
    ) -> Result<Flags, DecodeError> {
        Ok(Flags {
            active: read_field(decoder, names)?,
            hidden: read_optional_field(decoder, names)?,
            mark: read_optional_field(decoder, names)?,
        })
    }
}
