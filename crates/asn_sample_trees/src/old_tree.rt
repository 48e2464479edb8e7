//! Describes the first version of the sample `Tree`, with an extension marker that no addition
//! follows yet.
ghost use Rattle.asn_traits.specs.Shape.{Fields};
ghost use Rattle.std.specs.Prelude.{[], refl};

use crate::{Tree, TreeAdditions};
use asn_core::OutOfMemory;
use asn_fault::{DecodeError, EncodeError};
use asn_fields::FieldShapes;
use asn_traits::{Decoder, Encoder, Field, FieldNames};
use std::alloc::Global;

/// Is `OldTree ::= SEQUENCE { kids SEQUENCE OF OldTree, ... }`.
pub type OldTree = Tree<OldTreeAdditions>;

/// Has no extension addition.
#[derive(Drop)]
pub struct OldTreeAdditions;

/// Lists the extension additions.
const OLD_TREE_ADDED: &'static [Field] = &[];

/// Describes no addition.
impl TreeAdditions for OldTreeAdditions {
    ghost fields = { Fields.no_fields };

    ghost slots = { λ x. [] };

    fn listed() -> &'static [Field] {
        OLD_TREE_ADDED
    }

    fn shapes(alloc: Global) -> Result<FieldShapes, OutOfMemory> {
        Ok(FieldShapes::new(alloc))
    }

    fn write<E: Encoder>(&self, _encoder: &mut E) -> Result<(), EncodeError> {
        Ok(())
    }

    fn read<D: Decoder>(
        _decoder: &mut D,
        _names: &mut FieldNames,
    ) -> Result<OldTreeAdditions, DecodeError> {
        Ok(OldTreeAdditions)
    }

    ghost fixed = { λ r. refl };

    ghost readable = { refl };
}
