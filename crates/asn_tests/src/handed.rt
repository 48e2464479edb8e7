//! Defines a type that keeps what its own calls are handed, and calls it in each way.
ghost use Rattle.asn_model.specs.Shape.{Shape as AbstractShape};
ghost use Rattle.asn_model.specs.Value.{Value};
ghost use Rattle.std.specs.Prelude.{refl};

use crate::checks::{DECODER, assert_same, let_go};
use asn_core::{Class, Constraint, Constraints, Identifier, OutOfMemory, Tag, TagTree};
use asn_fault::{DecodeError, EncodeError};
use asn_traits::{AsnType, Decode, Decoder, Encode, Encoder, Shape};
use jer_rules::jer;
use std::alloc::Global;
use std::cell::Cell;
use std::process::Abort;

/// What a call of a type was handed.
#[derive(Clone, Copy, Debug, PartialEq, Eq)]
struct Handed {
    tag: Tag,
    /// Counts the constraints.
    constraints: usize,
    /// `EMPTY` where the call has none.
    identifier: Identifier,
}

/// Nothing that a default call hands on.
const NOTHING: Handed = Handed {
    tag: Tag::EOC,
    constraints: 9,
    identifier: Identifier::EMPTY,
};

/// A BOOLEAN with a tag, constraints and an identifier of its own, which keeps what its last call
/// was handed.
#[derive(Drop)]
struct Flag {
    value: bool,
    handed: Cell<Handed>,
}

/// The tag of `Flag`.
const FLAG_TAG: Tag = Tag {
    class: Class::Private,
    value: 7,
};

/// An extension marker, and no other constraint.
const MARKER: &'static [Constraint] = &[Constraint::Extensible];

/// The name of `Flag` under other encoding rules.
const FLAG_NAME: Identifier = Identifier { name: Some("flag") };

impl AsnType for Flag {
    const TAG: Tag = FLAG_TAG;

    const TAG_TREE: TagTree = TagTree::Leaf(FLAG_TAG);

    const CONSTRAINTS: Constraints = Constraints { items: MARKER };

    const IDENTIFIER: Identifier = FLAG_NAME;

    const IS_CHOICE: bool = false;

    ghost shape_of = { AbstractShape.boolean };

    ghost value_of = { λ flag. Value.boolean flag.value };

    fn tag_table() -> (Tag, TagTree, bool) {
        (Self::TAG, Self::TAG_TREE, Self::IS_CHOICE)
    }

    fn constraint_table() -> Constraints {
        Self::CONSTRAINTS
    }

    fn shape(_alloc: Global) -> Result<Shape, OutOfMemory> {
        Ok(Shape::Bool)
    }

    ghost readable = { refl };
}

impl Encode for Flag {
    fn encode_with_tag_and_constraints<E: Encoder>(
        &self,
        encoder: &mut E,
        tag: Tag,
        constraints: &Constraints,
        identifier: Identifier,
    ) -> Result<(), EncodeError> {
        self.handed.set(Handed {
            tag,
            constraints: constraints.items.len(),
            identifier,
        });
        encoder.encode_bool(tag, self.value, identifier)
    }
}

impl Decode for Flag {
    fn decode_with_tag_and_constraints<D: Decoder>(
        decoder: &mut D,
        tag: Tag,
        constraints: &Constraints,
    ) -> Result<Flag, DecodeError> {
        let handed = Handed {
            tag,
            constraints: constraints.items.len(),
            identifier: Identifier::EMPTY,
        };
        let value = decoder.decode_bool(tag)?;
        Ok(Flag {
            value,
            handed: Cell::new(handed),
        })
    }
}

/// Encodes a `Flag` by the call at this place, and returns what its own call was handed.
fn encoded(rt: &impl Abort, alloc: Global, call: usize) -> Handed {
    let flag = Flag {
        value: true,
        handed: Cell::new(NOTHING),
    };
    let mut encoder = jer::enc::Encoder::new(alloc);
    let written = match call {
        0 => flag.encode(&mut encoder),
        1 => flag.encode_with_tag(&mut encoder, Tag::NULL),
        _ => flag.encode_with_constraints(&mut encoder, &Constraints::NONE),
    };
    let_go(encoder);
    written.expect(rt, "not written");
    flag.handed.get()
}

/// Lists the tag and the number of constraints that each call hands on: the type's own, but for
/// what the call is given.
const HANDED_ON: [(Tag, usize); 3] = [(FLAG_TAG, 1), (Tag::NULL, 1), (FLAG_TAG, 0)];

/// Each call for encoding hands on the type's own tag, constraints and identifier, but for what it
/// is given.
#[test]
fn calls_for_encoding_hand_on_what_is_the_types_own(rt: HostRuntime) {
    for (call, &(tag, constraints)) in HANDED_ON.iter().enumerate() {
        let wanted = Handed {
            tag,
            constraints,
            identifier: FLAG_NAME,
        };
        assert_same(&rt, encoded(&rt, rt.alloc(), call), wanted);
    }
}

/// Decodes a `Flag` by the call at this place, from the text of a BOOLEAN.
fn decoded(rt: &impl Abort, alloc: Global, call: usize) -> Handed {
    let mut decoder = jer::de::Decoder::new(alloc, "true").expect(rt, DECODER);
    let read: Result<Flag, DecodeError> = match call {
        0 => Decode::decode(&mut decoder),
        1 => Decode::decode_with_tag(&mut decoder, Tag::NULL),
        _ => Decode::decode_with_constraints(&mut decoder, &Constraints::NONE),
    };
    let_go(decoder);
    read.expect(rt, "not read").handed.get()
}

/// So does each call for decoding, which has no identifier.
#[test]
fn calls_for_decoding_hand_on_what_is_the_types_own(rt: HostRuntime) {
    for (call, &(tag, constraints)) in HANDED_ON.iter().enumerate() {
        let wanted = Handed {
            tag,
            constraints,
            identifier: Identifier::EMPTY,
        };
        assert_same(&rt, decoded(&rt, rt.alloc(), call), wanted);
    }
}
