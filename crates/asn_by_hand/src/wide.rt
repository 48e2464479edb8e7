//! Describes a SEQUENCE (X.680, section 25) of nine fields: the sample to copy for one of more
//! than eight.
ghost use Rattle.asn_by_hand.specs.Wide.{rest_fields, rest_slots, wide_fields, wide_slots};
ghost use Rattle.std.specs.Prelude.{refl};

use crate::groups::{Flags, Names, Numbers};
use asn_core::{OutOfMemory, Tag};
use asn_fault::{DecodeError, EncodeError};
use asn_fields::{FieldGroup, FieldShapes, read_groups, write_groups};
use asn_traits::{
    Decoder, Encoder, Field, FieldNames, OfKind, SequenceFields, SequenceKind, Shape, optional,
    required,
};
use std::alloc::Global;

/// Holds the fields of a `Wide` after its names: a group of two groups.
#[derive(Debug, PartialEq, Eq, Drop)]
pub struct Rest {
    /// Holds the fields `age`, `code` and `size`.
    pub numbers: Numbers,
    /// Holds the fields `active`, `hidden` and `mark`.
    pub flags: Flags,
}

/// Encodes and decodes the fields of the two groups.
impl FieldGroup for Rest {
    ghost group = { rest_fields };

    ghost group_slots = { rest_slots };

    fn write_group<E: Encoder>(&self, encoder: &mut E) -> Result<(), EncodeError> {
        write_groups(encoder, &self.numbers, &self.flags)
    }

    fn read_group<D: Decoder>(
        decoder: &mut D,
        names: &mut FieldNames,
    ) -> Result<Rest, DecodeError> {
        let (numbers, flags) = read_groups(decoder, names)?;
        Ok(Rest { numbers, flags })
    }
}

/// Is `Wide ::= SEQUENCE { family UTF8String, given UTF8String, nick UTF8String OPTIONAL,
/// age INTEGER (0..255), code INTEGER (-2^63..2^63-1), size INTEGER (0..255) OPTIONAL,
/// active BOOLEAN, hidden BOOLEAN OPTIONAL, mark NULL OPTIONAL }`.
#[derive(Debug, PartialEq, Eq, Drop)]
pub struct Wide {
    /// Holds the fields `family`, `given` and `nick`.
    pub names: Names,
    /// Holds the other fields.
    pub rest: Rest,
}

/// Lists the fields of all groups.
const WIDE_FIELDS: &'static [Field] = &[
    required!(0, Tag::CONTEXT_0, "family"),
    required!(1, Tag::CONTEXT_1, "given"),
    optional!(2, Tag::CONTEXT_2, "nick"),
    required!(3, Tag::CONTEXT_3, "age"),
    required!(4, Tag::CONTEXT_4, "code"),
    optional!(5, Tag::CONTEXT_5, "size"),
    required!(6, Tag::CONTEXT_6, "active"),
    optional!(7, Tag::CONTEXT_7, "hidden"),
    optional!(8, Tag::CONTEXT_8, "mark"),
];

/// Is a SEQUENCE.
impl OfKind for Wide {
    type Kind = SequenceKind;
}

/// Describes the fields, and encodes and decodes those of the two groups.
impl SequenceFields for Wide {
    const ROWS: &'static [Field] = WIDE_FIELDS;

    ghost fields = { wide_fields };

    ghost slots = { wide_slots };

    fn listed() -> &'static [Field] {
        Self::ROWS
    }

    fn listed_added() -> Option<&'static [Field]> {
        None
    }

    fn sequence_shape(alloc: Global) -> Result<Shape, OutOfMemory> {
        let mut fields = FieldShapes::new(alloc);
        fields.required::<String>("family", Tag::CONTEXT_0)?;
        fields.required::<String>("given", Tag::CONTEXT_1)?;
        fields.optional::<String>("nick", Tag::CONTEXT_2)?;
        fields.required::<u8>("age", Tag::CONTEXT_3)?;
        fields.required::<i64>("code", Tag::CONTEXT_4)?;
        fields.optional::<u8>("size", Tag::CONTEXT_5)?;
        fields.required::<bool>("active", Tag::CONTEXT_6)?;
        fields.optional::<bool>("hidden", Tag::CONTEXT_7)?;
        fields.optional::<()>("mark", Tag::CONTEXT_8)?;
        Ok(fields.sequence())
    }

    fn write_fields<E: Encoder>(&self, encoder: &mut E) -> Result<(), EncodeError> {
        write_groups(encoder, &self.names, &self.rest)
    }

    fn read_fields<D: Decoder>(
        decoder: &mut D,
        names: &mut FieldNames,
    ) -> Result<Wide, DecodeError> {
        let (names, rest) = read_groups(decoder, names)?;
        Ok(Wide { names, rest })
    }

    ghost readable = { refl };
}
