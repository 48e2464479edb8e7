//! Gives a document the traits of an ASN.1 type: a CHOICE of seven alternatives.
ghost use Rattle.asn_document.specs.Meaning.{document_shape, document_alternatives, entry_shape};
ghost use Rattle.asn_document.specs.Meaning.{entry_fields_with, json_entry, json_value};
ghost use Rattle.asn_traits.specs.Shape.{Shape as AbstractShape, AlternativeAdditions, closed_seq};
ghost use Rattle.asn_traits.specs.ShapeView.{shape_view};
ghost use Rattle.asn_traits.specs.Value.{Value, values};
ghost use Rattle.std.specs.Prelude.{◌≡◌, IfOk, refl};

use crate::reading::{read_members, read_payload, read_value};
use crate::writing::{ARRAY, DECIMAL, OBJECT, VARIANTS, write_members, write_value};
use crate::{Document, DocumentMap};
use asn_core::{Constraints, Identifier, OutOfMemory, Tag};
use asn_decimal::Decimal;
use asn_fault::{DecodeError, EncodeError};
use asn_fields::{AlternativeShapes, FieldShapes};
use asn_traits::{AsnType, Choice, Decode, DecodeChoice, Decoder, Encode, Encoder, Shape, TagTree};
use std::alloc::Global;

/// States the tags, the shape and the values of a document.
impl AsnType for Document {
    const TAG: Tag = Tag::EOC;

    const TAG_TREE: TagTree = TagTree::Choice(VARIANTS);

    const IS_CHOICE: bool = true;

    ghost shape_of = { document_shape };

    ghost value_of = { λ d. json_value d.value };

    fn tag_table() -> (Tag, TagTree, bool) {
        (Self::TAG, Self::TAG_TREE, Self::IS_CHOICE)
    }

    fn constraint_table() -> Constraints {
        Self::CONSTRAINTS
    }

    // `Back(0)` is the document around an array and around an entry.
    fn shape(alloc: Global) -> Result<Shape, OutOfMemory> {
        let entries = Box::new(alloc, shape_of_entry(alloc, Shape::Back(0))?)?;
        let elements = Box::new(alloc, Shape::Back(0))?;
        let mut alternatives = AlternativeShapes::new(alloc);
        alternatives.alternative::<()>("null", Tag::NULL)?;
        alternatives.alternative::<bool>("bool", Tag::BOOL)?;
        alternatives.alternative::<i64>("integer", Tag::INTEGER)?;
        alternatives.alternative::<Decimal>("decimal", DECIMAL)?;
        alternatives.alternative::<String>("string", Tag::UTF8_STRING)?;
        alternatives.alternative_of("array", ARRAY, Shape::ListOf(elements))?;
        alternatives.alternative_of("object", OBJECT, Shape::Table(entries))?;
        let choice = Box::new(alloc, alternatives.choice())?;
        Ok(Shape::Loop(choice))
    }

    // The loop has a list between itself and each `Back`, so reading it ends.
    ghost readable = { refl };
}

/// Returns the shape of an entry, by that of its value.
///
/// # Errors
///
/// `OutOfMemory` alone.
fn shape_of_entry(alloc: Global, document: Shape) -> Result<Shape, OutOfMemory>
    ensures { IfOk result (λ s. shape_view s ≡ closed_seq (entry_fields_with
        (shape_view document))) }
{
    let mut fields = FieldShapes::new(alloc);
    fields.required::<String>("key", Tag::UTF8_STRING)?;
    fields.required_of("value", Tag::BOOL, document)?;
    Ok(fields.sequence())
}

/// Lists the alternatives of a document.
impl Choice for Document {
    const VARIANTS: &'static [TagTree] = VARIANTS;

    const EXTENDED_VARIANTS: Option<&'static [TagTree]> = None;

    const IDENTIFIERS: &'static [&'static str] = &[
        "null", "bool", "integer", "decimal", "string", "array", "object",
    ];

    ghost alternatives = { document_alternatives };

    ghost added = { AlternativeAdditions.closed_alternatives };

    fn variant_table() -> &'static [TagTree] {
        Self::VARIANTS
    }

    fn extended_variant_table() -> Option<&'static [TagTree]> {
        Self::EXTENDED_VARIANTS
    }

    fn identifier_table() -> &'static [&'static str] {
        Self::IDENTIFIERS
    }

    ghost of_alternatives = { refl };
}

/// Encodes the value. Tag and constraints mean nothing to a CHOICE.
impl Encode for Document {
    fn encode_with_tag_and_constraints<E: Encoder>(
        &self,
        encoder: &mut E,
        _tag: Tag,
        _constraints: &Constraints,
        _identifier: Identifier,
    ) -> Result<(), EncodeError> {
        write_value(encoder, self.value())
    }
}

/// Decodes the payload of an alternative.
impl DecodeChoice for Document {
    fn from_tag<D: Decoder>(decoder: &mut D, tag: Tag) -> Result<Document, DecodeError> {
        match read_payload(decoder, tag) {
            Ok(value) => Ok(Document::of_whole(value)),
            Err(error) => Err(error),
        }
    }
}

/// Decodes the value.
impl Decode for Document {
    fn decode_with_tag_and_constraints<D: Decoder>(
        decoder: &mut D,
        _tag: Tag,
        _constraints: &Constraints,
    ) -> Result<Document, DecodeError> {
        match read_value(decoder) {
            Ok(value) => Ok(Document::of_whole(value)),
            Err(error) => Err(error),
        }
    }
}

/// States the tag, the shape and the values of the object by itself.
impl AsnType for DocumentMap {
    const TAG: Tag = OBJECT;

    const TAG_TREE: TagTree = TagTree::Leaf(OBJECT);

    const IS_CHOICE: bool = false;

    ghost shape_of = { AbstractShape.table entry_shape };

    ghost value_of = { λ m. Value.list (values json_entry m.members.entries) };

    fn tag_table() -> (Tag, TagTree, bool) {
        (Self::TAG, Self::TAG_TREE, Self::IS_CHOICE)
    }

    fn constraint_table() -> Constraints {
        Self::CONSTRAINTS
    }

    fn shape(alloc: Global) -> Result<Shape, OutOfMemory> {
        let document = Document::shape(alloc)?;
        let entries = Box::new(alloc, shape_of_entry(alloc, document)?)?;
        Ok(Shape::Table(entries))
    }

    ghost readable = { refl };
}

/// Encodes the members as entries, in byte order of their keys.
impl Encode for DocumentMap {
    fn encode_with_tag_and_constraints<E: Encoder>(
        &self,
        encoder: &mut E,
        _tag: Tag,
        _constraints: &Constraints,
        _identifier: Identifier,
    ) -> Result<(), EncodeError> {
        write_members(encoder, self.members())
    }
}

/// Decodes entries, of which the last one of each key counts.
impl Decode for DocumentMap {
    fn decode_with_tag_and_constraints<D: Decoder>(
        decoder: &mut D,
        _tag: Tag,
        _constraints: &Constraints,
    ) -> Result<DocumentMap, DecodeError> {
        match read_members(decoder) {
            Ok(members) => Ok(DocumentMap::of_whole(members)),
            Err(error) => Err(error),
        }
    }
}
