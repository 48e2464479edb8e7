//! Makes lists of parts: the components of a SEQUENCE or SET, and the alternatives of a CHOICE.
ghost use Rattle.asn_model.specs.ShapeView.{alternative_views, field_views, presence_view};
ghost use Rattle.asn_modules_types.specs.Known.{part_view, parts_view};
ghost use Rattle.asn_expansion.specs.Expansion.{context_tag};
ghost use Rattle.asn_modules_types.specs.Types.{alternatives_from, fields_from, if_required};
ghost use Rattle.asn_modules_types.specs.Types.{relaxed};
ghost use Rattle.std.specs.Prelude.{◌≡◌, ◌+◌, ◌∷◌, [], IfOk, OnOk, length, map};

use crate::fault::LinkFault;
use asn_core::{Class, Tag};
use asn_model::{AlternativeShape, FieldShape, PresenceShape, SeqKind, Shape};
use std::alloc::{AllocError, Global};

/// States where components stand. In a CHOICE it doesn't matter: alternatives have no presence, and
/// there is no COMPONENTS OF.
#[derive(Clone, Copy, Drop)]
pub struct Place {
    /// Is the kind of the type that they stand in.
    pub kind: SeqKind,
    /// States whether they stand between version brackets there.
    pub grouped: bool,
}

/// Is a component of a SEQUENCE or SET, or an alternative of a CHOICE.
#[derive(Drop)]
pub struct Part {
    /// Is its name.
    pub name: String,
    /// States whether it may be absent.
    pub presence: PresenceShape,
    /// Describes its type.
    pub shape: Shape,
}

/// Holds the parts of a type.
#[derive(Drop)]
pub struct Lists {
    /// Lists those of the root.
    pub root: Vec<Part>,
    /// Lists the extension additions; `None` where there is no marker.
    pub added: Option<Vec<Part>>,
}

/// Returns whether an extension addition of this presence may be absent: one that is stated as
/// required may, since a sender of an older version leaves it out (X.680, section 6).
fn if_required(presence: PresenceShape) -> PresenceShape
    ensures { presence_view result ≡ if_required (presence_view presence) }
{
    match presence {
        PresenceShape::Required => PresenceShape::Optional,
        presence => presence,
    }
}

/// Returns the part as an extension addition.
fn relaxed(part: Part) -> Part
    ensures { part_view result ≡ relaxed (part_view part) }
{
    Part {
        name: part.name,
        presence: if_required(part.presence),
        shape: part.shape,
    }
}

/// Returns the parts as extension additions, of which each may be absent.
///
/// # Errors
///
/// Where memory runs out.
pub fn relaxed_parts(alloc: Global, parts: Vec<Part>) -> Result<Vec<Part>, AllocError>
    ensures { IfOk result (λ added. parts_view added ≡ map relaxed (parts_view parts)) }
{
    let mut added = Vec::new(alloc);
    for part in parts {
        added.push(relaxed(part))?;
    }
    Ok(added)
}

/// Returns the context tag with this number.
fn context_tag(number: u32) -> Tag
    ensures { result ≡ context_tag number }
{
    Tag {
        class: Class::Context,
        value: number,
    }
}

/// Returns the next number of a tag.
///
/// # Errors
///
/// `TooMany` where there is none.
fn next_tag(tag: u32) -> Result<u32, LinkFault>
    ensures { IfOk result (λ next. next ≡ tag + 1) }
{
    if tag == u32::MAX {
        return Err(LinkFault::TooMany);
    }
    Ok(tag + 1)
}

/// Returns the part as a field with this tag.
fn field_of(part: Part, tag: u32) -> FieldShape
    ensures { field_views (result ∷ []) ≡ fields_from tag (part_view part ∷ []) }
{
    FieldShape {
        name: part.name,
        tag: context_tag(tag),
        presence: part.presence,
        shape: part.shape,
    }
}

/// Returns the part as an alternative with this tag.
fn alternative_of(part: Part, tag: u32) -> AlternativeShape
    ensures { alternative_views (result ∷ []) ≡ alternatives_from tag (part_view part ∷ []) }
{
    AlternativeShape {
        identifier: part.name,
        tag: context_tag(tag),
        shape: part.shape,
    }
}

/// Returns the parts as fields, with tags from this number on, which is left after them.
///
/// # Errors
///
/// `TooMany` where there are 2^32 tags, and `OutOfMemory`.
pub fn fields_of(
    alloc: Global,
    parts: Vec<Part>,
    tag: &mut u32,
) -> Result<Vec<FieldShape>, LinkFault>
    ensures fields { IfOk result (λ fs. field_views fs.items
        ≡ fields_from tag.old (map part_view parts.items)) }
    ensures tags { OnOk result (tag.new ≡ tag.old + length parts.items) }
{
    let mut fields = Vec::new(alloc);
    for part in parts {
        fields.push(field_of(part, *tag))?;
        *tag = next_tag(*tag)?;
    }
    Ok(fields)
}

/// Returns the parts as alternatives, with tags from this number on, which is left after them.
///
/// # Errors
///
/// `TooMany` where there are 2^32 tags, and `OutOfMemory`.
pub fn alternatives_of(
    alloc: Global,
    parts: Vec<Part>,
    tag: &mut u32,
) -> Result<Vec<AlternativeShape>, LinkFault>
    ensures alternatives { IfOk result (λ alts. alternative_views alts.items
        ≡ alternatives_from tag.old (map part_view parts.items)) }
    ensures tags { OnOk result (tag.new ≡ tag.old + length parts.items) }
{
    let mut alternatives = Vec::new(alloc);
    for part in parts {
        alternatives.push(alternative_of(part, *tag))?;
        *tag = next_tag(*tag)?;
    }
    Ok(alternatives)
}
