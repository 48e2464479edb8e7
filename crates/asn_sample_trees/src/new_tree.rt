//! Describes `OldTree` in a later version, in which each tree may have a label.
ghost use Rattle.asn_sample_trees.specs.NewTree.{label_slots, new_tree_added};
ghost use Rattle.std.specs.Prelude.{refl};

use crate::{Tree, TreeAdditions};
use asn_core::{OutOfMemory, Tag};
use asn_fault::{DecodeError, EncodeError};
use asn_fields::{FieldShapes, read_optional_field, write_optional_field};
use asn_traits::{Decoder, Encoder, Field, FieldNames, optional};
use std::alloc::Global;

/// Is `NewTree ::= SEQUENCE { kids SEQUENCE OF NewTree, ..., label UTF8String OPTIONAL }`.
pub type NewTree = Tree<NewTreeAdditions>;

/// Holds the extension addition of a tree.
#[derive(Drop)]
pub struct NewTreeAdditions {
    /// Holds the label, if it is present.
    pub label: Option<String>,
}

/// Lists the extension additions.
const NEW_TREE_ADDED: &'static [Field] = &[optional!(1, Tag::CONTEXT_1, "label")];

/// Describes the label.
impl TreeAdditions for NewTreeAdditions {
    ghost fields = { new_tree_added };

    ghost slots = { label_slots };

    fn listed() -> &'static [Field] {
        NEW_TREE_ADDED
    }

    fn shapes(alloc: Global) -> Result<FieldShapes, OutOfMemory> {
        let mut added = FieldShapes::new(alloc);
        added.optional::<String>("label", Tag::CONTEXT_1)?;
        Ok(added)
    }

    fn write<E: Encoder>(&self, encoder: &mut E) -> Result<(), EncodeError> {
        write_optional_field(encoder, &self.label)?;
        Ok(())
    }

    fn read<D: Decoder>(
        decoder: &mut D,
        names: &mut FieldNames,
    ) -> Result<NewTreeAdditions, DecodeError> {
        Ok(NewTreeAdditions {
            label: read_optional_field(decoder, names)?,
        })
    }

    ghost fixed = { λ r. refl };

    ghost readable = { refl };
}
