//! Describes a SEQUENCE with an extension addition that has to be present: the sample to copy for
//! one with an extension marker.
ghost use Rattle.asn_sample_choices.specs.TestTypeA.{test_type_a_added, test_type_a_fields};
ghost use Rattle.asn_sample_choices.specs.TestTypeA.{test_type_a_slots};
ghost use Rattle.std.specs.Prelude.{refl};

use crate::Inner;
use asn_core::{Bits, Integer, OutOfMemory, Tag};
use asn_fault::{DecodeError, EncodeError};
use asn_fields::{FieldShapes, read_addition, read_field, write_field};
use asn_traits::{
    Decoder, Encoder, Field, FieldNames, OfKind, SequenceFields, SequenceKind, Shape, required,
};
use std::alloc::Global;

/// Is `TestTypeA ::= SEQUENCE { juice INTEGER (0..3, ...), wine Inner, ..., grappa BIT STRING }`.
/// Neither notation checks the range.
#[derive(Debug, PartialEq, Eq, Drop)]
pub struct TestTypeA {
    /// Holds a number.
    pub juice: Integer,
    /// Holds a CHOICE.
    pub wine: Inner,
    /// Holds the extension addition. A text without it is one of an older version of the type, and
    /// is refused with `MissingField`.
    pub grappa: Bits,
}

/// Lists the fields of the root.
const TEST_TYPE_A_FIELDS: &'static [Field] = &[
    required!(0, Tag::CONTEXT_0, "juice"),
    required!(1, Tag::CONTEXT_1, "wine"),
];

/// Lists the extension additions, whose places go on from those of the root.
const TEST_TYPE_A_ADDED: &'static [Field] = &[required!(2, Tag::CONTEXT_2, "grappa")];

/// Is a SEQUENCE.
impl OfKind for TestTypeA {
    type Kind = SequenceKind;
}

/// Describes the fields, extension additions last.
impl SequenceFields for TestTypeA {
    const ROWS: &'static [Field] = TEST_TYPE_A_FIELDS;

    const ADDED: Option<&'static [Field]> = Some(TEST_TYPE_A_ADDED);

    ghost fields = { test_type_a_fields };

    ghost added = { test_type_a_added };

    ghost slots = { test_type_a_slots };

    fn listed() -> &'static [Field] {
        Self::ROWS
    }

    fn listed_added() -> Option<&'static [Field]> {
        Self::ADDED
    }

    fn sequence_shape(alloc: Global) -> Result<Shape, OutOfMemory> {
        let mut fields = FieldShapes::new(alloc);
        fields.required::<Integer>("juice", Tag::CONTEXT_0)?;
        fields.required::<Inner>("wine", Tag::CONTEXT_1)?;
        let mut added = FieldShapes::new(alloc);
        added.required::<Bits>("grappa", Tag::CONTEXT_2)?;
        Ok(fields.extensible_sequence(added))
    }

    fn write_fields<E: Encoder>(&self, encoder: &mut E) -> Result<(), EncodeError> {
        write_field(encoder, &self.juice)?;
        write_field(encoder, &self.wine)?;
        write_field(encoder, &self.grappa)?;
        Ok(())
    }

    // `read_addition` refuses an absent addition by its name alone.
    fn read_fields<D: Decoder>(
        decoder: &mut D,
        names: &mut FieldNames,
    ) -> Result<TestTypeA, DecodeError> {
        Ok(TestTypeA {
            juice: read_field(decoder, names)?,
            wine: read_field(decoder, names)?,
            grappa: read_addition(decoder, names)?,
        })
    }

    ghost readable = { refl };
}
