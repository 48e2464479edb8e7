//! Describes a SEQUENCE that holds trees like itself, the sample of a recursive type of which there
//! are two versions. It has no kind, so it implements the three traits itself, over the primitive
//! calls of the coders. What a version has after the extension marker is a parameter.
ghost use Rattle.asn_sample_trees.specs.TreeShape.{tree_body, tree_fields, tree_shape};
ghost use Rattle.asn_sample_trees.specs.Tree.{tree_value};
ghost use Rattle.asn_coding.specs.Answer.{Answer};
ghost use Rattle.asn_traits.specs.Shape.{Shape as AbstractShape};
ghost use Rattle.asn_coding.specs.Tables.{field_rows, rows_of};
ghost use Rattle.asn_traits.specs.Value.{Value, values};
ghost use Rattle.asn_coding.specs.Writing.{FailsToEncode, Written};
ghost use Rattle.std.specs.Prelude.{◌≡◌, IfErr, OnOk};

use crate::TreeAdditions;
use asn_core::{Constraints, Identifier, OutOfMemory, Tag, TagTree};
use asn_fault::{DecodeError, EncodeError};
use asn_fields::{FieldShapes, within_field};
use asn_traits::{
    AsnType, Decode, Decoder, Encode, Encoder, Field, FieldNames, SeqKind, Shape, required,
};
use std::alloc::Global;

/// Is `SEQUENCE { kids SEQUENCE OF Tree, ... }`, with the extension additions `A`.
#[derive(Drop)]
pub struct Tree<A> {
    /// Holds the trees below this one.
    pub kids: Vec<Tree<A>>,
    /// Holds the extension additions.
    pub added: A,
}

/// Lists the fields of the root.
const TREE_FIELDS: &'static [Field] = &[required!(0, Tag::CONTEXT_0, "kids")];

/// Returns the fields of the root.
fn tree_table() -> &'static [Field]
    ensures { rows_of result.now ≡ field_rows 0 (tree_fields AbstractShape.null) }
{
    TREE_FIELDS
}

/// States the tag, the shape and the values of the type.
impl<A: TreeAdditions> AsnType for Tree<A> {
    const TAG: Tag = Tag::SEQUENCE;

    const TAG_TREE: TagTree = TagTree::Leaf(Tag::SEQUENCE);

    const IS_CHOICE: bool = false;

    ghost shape_of = { tree_shape A.fields };

    ghost value_of = { tree_value A.fields A.slots };

    fn tag_table() -> (Tag, TagTree, bool) {
        (Tag::SEQUENCE, TagTree::Leaf(Tag::SEQUENCE), false)
    }

    fn constraint_table() -> Constraints {
        Constraints::NONE
    }

    // `Back(0)` is the tree around the kids.
    fn shape(alloc: Global) -> Result<Shape, OutOfMemory> {
        let kid = Box::new(alloc, Shape::Back(0))?;
        let mut fields = FieldShapes::new(alloc);
        fields.required_of("kids", Tag::CONTEXT_0, Shape::ListOf(kid))?;
        let body = fields.extensible_sequence(A::shapes(alloc)?);
        Ok(Shape::Loop(Box::new(alloc, body)?))
    }

    ghost readable = { A.readable };
}

/// Encodes the fields.
impl<A: TreeAdditions> Encode for Tree<A> {
    fn encode_with_tag_and_constraints<E: Encoder>(
        &self,
        encoder: &mut E,
        _tag: Tag,
        _constraints: &Constraints,
        _identifier: Identifier,
    ) -> Result<(), EncodeError> {
        write_tree(encoder, self)
    }
}

/// Decodes the fields.
impl<A: TreeAdditions> Decode for Tree<A> {
    fn decode_with_tag_and_constraints<D: Decoder>(
        decoder: &mut D,
        _tag: Tag,
        _constraints: &Constraints,
    ) -> Result<Tree<A>, DecodeError> {
        read_tree(decoder)
    }
}

/// Encodes a tree: its kids, and then its additions.
///
/// # Errors
///
/// Those of `Encoder`, and of the additions.
#[cycle(write)]
fn write_tree<A: TreeAdditions, E: Encoder>(
    encoder: &mut E,
    tree: &Tree<A>,
) -> Result<(), EncodeError>
    ensures written { OnOk result (Written E.holds E.notation (tree_shape A.fields)
        (tree_value A.fields A.slots tree.now) encoder.old encoder.new) }
    ensures refused { IfErr result (FailsToEncode E.notation
        (tree_value A.fields A.slots tree.now)) }
{
    encoder.open_frame()?;
    write_kids(encoder, &tree.kids)?;
    tree.added.write(encoder)?;
    encoder.close_fields(tree_table(), A::listed())
}

/// Encodes trees as a SEQUENCE OF them.
///
/// # Errors
///
/// Those of the first tree that can't be encoded; `OutOfMemory`.
#[cycle(write)]
fn write_kids<A: TreeAdditions, E: Encoder>(
    encoder: &mut E,
    kids: &Vec<Tree<A>>,
) -> Result<(), EncodeError>
    ensures written { OnOk result (Written E.holds E.notation
        (AbstractShape.list_of (tree_shape A.fields))
        (Value.list (values (tree_value A.fields A.slots) kids.now.items))
        encoder.old encoder.new) }
    ensures refused { IfErr result (FailsToEncode E.notation
        (Value.list (values (tree_value A.fields A.slots) kids.now.items))) }
{
    encoder.open_frame()?;
    for kid in kids {
        write_tree(encoder, kid)?;
    }
    encoder.close_list()
}

/// Decodes a tree: its kids, and then its additions.
///
/// # Errors
///
/// A type mismatch where there are no members, in AVN `DuplicateField` where a field's name stands
/// at two present entries, and the end of input where there is no slot; those of the kids within
/// `FieldError`; those of the additions; `OutOfMemory`.
#[cycle(read)]
fn read_tree<A: TreeAdditions, D: Decoder>(decoder: &mut D) -> Result<Tree<A>, DecodeError>
    ensures { Answer D.notation (tree_shape A.fields) (tree_value A.fields A.slots)
        (D.pending decoder.old) result (D.pending decoder.new) }
{
    let additions = A::listed();
    match decoder.open_fields(SeqKind::Sequence, tree_table(), additions) {
        Ok(()) => {}
        Err(error) => return Err(error),
    }
    let kids = match read_kids(decoder) {
        Ok(kids) => kids,
        Err(error) => return Err(within_field(decoder, "kids", error)),
    };
    let mut names = FieldNames::new(&[], additions);
    match A::read(decoder, &mut names) {
        Ok(added) => Ok(Tree { kids, added }),
        Err(error) => Err(error),
    }
}

/// Decodes a SEQUENCE OF trees.
///
/// # Errors
///
/// A type mismatch where there is no list, and the end of input where there is no slot; those of
/// the first tree that can't be decoded; `OutOfMemory`.
#[cycle(read)]
fn read_kids<A: TreeAdditions, D: Decoder>(decoder: &mut D) -> Result<Vec<Tree<A>>, DecodeError>
    ensures { Answer D.notation (AbstractShape.list_of (tree_shape A.fields))
        (λ v. Value.list (values (tree_value A.fields A.slots) v.items)) (D.pending decoder.old)
        result (D.pending decoder.new) }
{
    let count = decoder.open_list(SeqKind::Sequence)?;
    let Ok(mut kids) = Vec::with_capacity(decoder.allocator(), count) else {
        return Err(DecodeError::out_of_memory(decoder.codec()));
    };
    for i in 0..count {
        let kid = read_tree(decoder)?;
        let Ok(()) = kids.push(kid) else {
            return Err(DecodeError::out_of_memory(decoder.codec()));
        };
    }
    Ok(kids)
}
