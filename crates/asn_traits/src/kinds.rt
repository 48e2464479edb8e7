//! Gives the types that a repository describes their kinds: those with fields, SEQUENCE and SET, by
//! `SequenceFields`, and CHOICE by `ChoicePayload`. A SEQUENCE and a SET are described alike, in an
//! impl each, since what a trait of a crate below is given for has to be a type of this crate.
ghost use Rattle.asn_coding.specs.Chosen.{chosen_value};
ghost use Rattle.asn_coding.specs.Writing.{members_value};
ghost use Rattle.asn_model.specs.Shape.{Shape as AbstractShape, SeqKind as AbstractSeqKind};
ghost use Rattle.asn_model.specs.Shape.{all_fields};
ghost use Rattle.asn_model.specs.ShapeView.{kind_view};
ghost use Rattle.std.specs.Prelude.{◌≡◌, refl};

use crate::{
    ChoicePayload, SequenceFields, read_choice, read_sequence, write_choice, write_sequence,
};
use asn_coding::{Fields, listed, place_of_tag};
use asn_core::{Constraints, Identifier, OutOfMemory, Tag, TagTree};
use asn_decode::{DecodeChoiceKind, DecodeKind, Decoder};
use asn_encode::{EncodeKind, Encoder};
use asn_fault::{DecodeError, EncodeError};
use asn_model::{SeqKind, Shape};
use asn_types::{DescribeKind, FieldTableKind, OfKind, VariantTableKind};
use std::alloc::Global;

/// Is a kind of types with fields: SEQUENCE or SET.
pub trait FieldsKind {
    /// Holds the universal tag of its types.
    const UNIVERSAL: Tag;

    // Which of the two it is.
    ghost seq_kind: { AbstractSeqKind };

    /// Returns which of the two it is.
    fn seq_kind() -> SeqKind
        ensures { kind_view result ≡ seq_kind };
}

/// Names the kind of SEQUENCE types.
pub struct SequenceKind;

/// Has the fields of its types in order.
impl FieldsKind for SequenceKind {
    const UNIVERSAL: Tag = Tag::SEQUENCE;

    ghost seq_kind = { AbstractSeqKind.sequence };

    fn seq_kind() -> SeqKind {
        SeqKind::Sequence
    }
}

/// Names the kind of SET types.
pub struct SetKind;

/// Has the fields of its types by their tags.
impl FieldsKind for SetKind {
    const UNIVERSAL: Tag = Tag::SET;

    ghost seq_kind = { AbstractSeqKind.set };

    fn seq_kind() -> SeqKind {
        SeqKind::Set
    }
}

/// Describes a SEQUENCE by its fields.
impl<T: SequenceFields + OfKind<Kind = SequenceKind>> DescribeKind<T> for SequenceKind {
    const TAG: Tag = Tag::SEQUENCE;

    ghost shape = { AbstractShape.seq AbstractSeqKind.sequence T.fields T.added };

    ghost value = { λ x. members_value (all_fields T.fields T.added) (T.slots x) };

    fn shape_as(alloc: Global) -> Result<Shape, OutOfMemory> {
        T::sequence_shape(alloc)
    }

    fn tags_as() -> (Tag, TagTree, bool) {
        (Tag::SEQUENCE, TagTree::Leaf(Tag::SEQUENCE), false)
    }

    ghost own_size = { refl };

    ghost own_value = { λ x. refl };

    ghost readable = { T.readable };
}

/// Lists the fields of a SEQUENCE.
impl<T: SequenceFields + OfKind<Kind = SequenceKind>> FieldTableKind<T> for SequenceKind {
    const FIELDS: Fields = Fields { items: T::ROWS };

    const EXTENDED_FIELDS: Option<Fields> = match T::ADDED {
        Some(items) => Some(Fields { items }),
        None => None,
    };

    ghost kind = { AbstractSeqKind.sequence };

    ghost fields = { T.fields };

    ghost added = { T.added };

    fn fields_as() -> Fields {
        Fields { items: T::listed() }
    }

    fn extended_fields_as() -> Option<Fields> {
        T::listed_added().map(|items| Fields { items })
    }

    ghost of_fields = { refl };
}

/// Encodes a SEQUENCE by its fields. Constraints on sizes mean nothing to it.
impl<T: SequenceFields + OfKind<Kind = SequenceKind>> EncodeKind<T> for SequenceKind {
    fn encode_as<E: Encoder>(
        value: &T,
        encoder: &mut E,
        tag: Tag,
        _constraints: &Constraints,
        identifier: Identifier,
    ) -> Result<(), EncodeError> {
        write_sequence(value, encoder, tag, identifier)
    }
}

/// Decodes a SEQUENCE by its fields.
impl<T: SequenceFields + OfKind<Kind = SequenceKind>> DecodeKind<T> for SequenceKind {
    fn decode_as<D: Decoder>(
        decoder: &mut D,
        _tag: Tag,
        _constraints: &Constraints,
    ) -> Result<T, DecodeError> {
        read_sequence(decoder)
    }
}

/// Describes a SET by its fields.
impl<T: SequenceFields + OfKind<Kind = SetKind>> DescribeKind<T> for SetKind {
    const TAG: Tag = Tag::SET;

    ghost shape = { AbstractShape.seq AbstractSeqKind.set T.fields T.added };

    ghost value = { λ x. members_value (all_fields T.fields T.added) (T.slots x) };

    fn shape_as(alloc: Global) -> Result<Shape, OutOfMemory> {
        T::sequence_shape(alloc)
    }

    fn tags_as() -> (Tag, TagTree, bool) {
        (Tag::SET, TagTree::Leaf(Tag::SET), false)
    }

    ghost own_size = { refl };

    ghost own_value = { λ x. refl };

    ghost readable = { T.readable };
}

/// Lists the fields of a SET.
impl<T: SequenceFields + OfKind<Kind = SetKind>> FieldTableKind<T> for SetKind {
    const FIELDS: Fields = Fields { items: T::ROWS };

    const EXTENDED_FIELDS: Option<Fields> = match T::ADDED {
        Some(items) => Some(Fields { items }),
        None => None,
    };

    ghost kind = { AbstractSeqKind.set };

    ghost fields = { T.fields };

    ghost added = { T.added };

    fn fields_as() -> Fields {
        Fields { items: T::listed() }
    }

    fn extended_fields_as() -> Option<Fields> {
        T::listed_added().map(|items| Fields { items })
    }

    ghost of_fields = { refl };
}

/// Encodes a SET by its fields. Constraints on sizes mean nothing to it.
impl<T: SequenceFields + OfKind<Kind = SetKind>> EncodeKind<T> for SetKind {
    fn encode_as<E: Encoder>(
        value: &T,
        encoder: &mut E,
        tag: Tag,
        _constraints: &Constraints,
        identifier: Identifier,
    ) -> Result<(), EncodeError> {
        write_sequence(value, encoder, tag, identifier)
    }
}

/// Decodes a SET by its fields.
impl<T: SequenceFields + OfKind<Kind = SetKind>> DecodeKind<T> for SetKind {
    fn decode_as<D: Decoder>(
        decoder: &mut D,
        _tag: Tag,
        _constraints: &Constraints,
    ) -> Result<T, DecodeError> {
        read_sequence(decoder)
    }
}

/// Names the kind of CHOICE types.
pub struct ChoiceKind;

/// Describes a CHOICE by its alternatives. It has no tag of its own, but those of these.
impl<T: ChoicePayload> DescribeKind<T> for ChoiceKind {
    const TAG: Tag = Tag::EOC;

    const TAG_TREE: TagTree = TagTree::Choice(T::ROOT);

    const IS_CHOICE: bool = true;

    ghost shape = { AbstractShape.choice T.alternatives T.additions };

    ghost value = { λ x. chosen_value (T.chosen x) };

    fn shape_as(alloc: Global) -> Result<Shape, OutOfMemory> {
        T::choice_shape(alloc)
    }

    fn tags_as() -> (Tag, TagTree, bool) {
        (Tag::EOC, TagTree::Choice(T::listed_root()), true)
    }

    ghost own_size = { refl };

    ghost own_value = { λ x. refl };

    ghost readable = { T.readable };
}

/// Lists the alternatives of a CHOICE.
impl<T: ChoicePayload> VariantTableKind<T> for ChoiceKind {
    const VARIANTS: &'static [TagTree] = T::ROOT;

    const EXTENDED_VARIANTS: Option<&'static [TagTree]> = T::ADDED;

    const IDENTIFIERS: &'static [&'static str] = T::NAMES;

    ghost alternatives = { T.alternatives };

    ghost added = { T.additions };

    fn variants_as() -> &'static [TagTree] {
        T::listed_root()
    }

    fn extended_variants_as() -> Option<&'static [TagTree]> {
        T::listed_added()
    }

    fn identifiers_as() -> &'static [&'static str] {
        T::listed_names()
    }

    ghost of_alternatives = { refl };
}

/// Encodes a CHOICE by its alternative, whose tag takes the place of one of the type.
impl<T: ChoicePayload> EncodeKind<T> for ChoiceKind {
    fn encode_as<E: Encoder>(
        value: &T,
        encoder: &mut E,
        _tag: Tag,
        _constraints: &Constraints,
        _identifier: Identifier,
    ) -> Result<(), EncodeError> {
        write_choice(value, encoder)
    }
}

/// Decodes a CHOICE by the identifier in the text.
impl<T: ChoicePayload> DecodeKind<T> for ChoiceKind {
    fn decode_as<D: Decoder>(
        decoder: &mut D,
        _tag: Tag,
        _constraints: &Constraints,
    ) -> Result<T, DecodeError> {
        read_choice(decoder)
    }
}

/// Decodes a payload by the place of the alternative that has the tag.
impl<T: ChoicePayload> DecodeChoiceKind<T> for ChoiceKind {
    fn from_tag_as<D: Decoder>(decoder: &mut D, tag: Tag) -> Result<T, DecodeError> {
        let place = place_of_tag(T::listed_root(), listed(T::listed_added()), tag);
        T::read_alternative(decoder, place)
    }
}
