//! The time types as ASN.1 types (X.680, sections 38, 46 and 47).
ghost use Rattle.asn_model.specs.Shape.{Shape as AbstractShape};
ghost use Rattle.asn_model.specs.Value.{Value};
ghost use Rattle.asn_types.specs.TextTypes.{IsTimeOf};
ghost use Rattle.std.specs.Prelude.{◌≡◌, refl, string_bytes};

use crate::{OfKind, TextKind, TextType};
use asn_core::{Codec, Tag, TagTree};
use asn_fault::{BerDecodeErrorKind, DecodeError};
use asn_model::{LeafKind, Shape};
use asn_times::{Date, GeneralizedTime, TimeFault, UtcTime, read_date, read_generalized, read_utc};
use std::alloc::Global;

/// Returns the time that was read of the text, or the refusal of the text, which is BER's.
fn time_of<T: Drop>(read: Result<T, TimeFault>, text: String) -> Result<T, DecodeError>
    ensures { IsTimeOf read (string_bytes text) result }
{
    match read {
        Ok(time) => Ok(time),
        Err(_) => Err(DecodeError::from(BerDecodeErrorKind::invalid_date(text))),
    }
}

impl OfKind for UtcTime {
    type Kind = TextKind;
}

impl TextType for UtcTime {
    const TEXT_TAG: Tag = Tag::UTC_TIME;

    ghost shape = { AbstractShape.utc };

    ghost value = { Value.utc };

    fn text_tags() -> (Tag, TagTree, bool) {
        (Tag::UTC_TIME, TagTree::Leaf(Tag::UTC_TIME), false)
    }

    fn text_shape() -> Shape {
        Shape::Utc
    }

    fn text_kind() -> LeafKind {
        LeafKind::Time
    }

    fn of_text(_alloc: Global, text: String, _codec: Codec) -> Result<UtcTime, DecodeError> {
        let read = read_utc(text.as_str());
        time_of(read, text)
    }

    ghost any_size = { λ n. refl };

    ghost any_value = { λ n x. refl };

    ghost readable = { refl };
}

impl OfKind for GeneralizedTime {
    type Kind = TextKind;
}

impl TextType for GeneralizedTime {
    const TEXT_TAG: Tag = Tag::GENERALIZED_TIME;

    ghost shape = { AbstractShape.gen };

    ghost value = { Value.gen };

    fn text_tags() -> (Tag, TagTree, bool) {
        (
            Tag::GENERALIZED_TIME,
            TagTree::Leaf(Tag::GENERALIZED_TIME),
            false,
        )
    }

    fn text_shape() -> Shape {
        Shape::Gen
    }

    fn text_kind() -> LeafKind {
        LeafKind::Time
    }

    fn of_text(
        _alloc: Global,
        text: String,
        _codec: Codec,
    ) -> Result<GeneralizedTime, DecodeError> {
        let read = read_generalized(text.as_str());
        time_of(read, text)
    }

    ghost any_size = { λ n. refl };

    ghost any_value = { λ n x. refl };

    ghost readable = { refl };
}

impl OfKind for Date {
    type Kind = TextKind;
}

impl TextType for Date {
    const TEXT_TAG: Tag = Tag::DATE;

    ghost shape = { AbstractShape.day };

    ghost value = { Value.day };

    fn text_tags() -> (Tag, TagTree, bool) {
        (Tag::DATE, TagTree::Leaf(Tag::DATE), false)
    }

    fn text_shape() -> Shape {
        Shape::Day
    }

    fn text_kind() -> LeafKind {
        LeafKind::Date
    }

    fn of_text(_alloc: Global, text: String, _codec: Codec) -> Result<Date, DecodeError> {
        let read = read_date(text.as_str());
        time_of(read, text)
    }

    ghost any_size = { λ n. refl };

    ghost any_value = { λ n x. refl };

    ghost readable = { refl };
}
