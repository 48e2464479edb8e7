//! Makes what shapes hold beside other shapes.
ghost use Rattle.asn_model.specs.Shape as abstract;
ghost use Rattle.asn_model.specs.ShapeView.{presence_view, shape_view};
ghost use Rattle.asn_expansion.specs.Expansion.{added_items, context_tag, presence_of};
ghost use Rattle.asn_expansion.specs.Expansion.{root_items};
ghost use Rattle.asn_notation.specs.View.{items_of};
ghost use Rattle.std.specs.Prelude.{◌≡◌, IfOk, map, option_map, string_bytes};

use asn_core::{Class, OutOfMemory, Tag};
use asn_model::{PresenceShape, Shape};
use std::alloc::Global;

/// Returns the context tag with this number.
pub fn context_tag(number: u32) -> Tag
    ensures { result ≡ context_tag number }
{
    Tag {
        class: Class::Context,
        value: number,
    }
}

/// Returns whether a component may be absent.
pub fn presence_of(optional: bool) -> PresenceShape
    ensures { presence_view result ≡ presence_of optional }
{
    if optional {
        PresenceShape::Optional
    } else {
        PresenceShape::Required
    }
}

/// Returns a copy of each text, in order.
///
/// # Errors
///
/// `OutOfMemory` alone.
fn copies(alloc: Global, texts: &[String]) -> Result<Vec<String>, OutOfMemory>
    ensures { IfOk result (λ v. map string_bytes v.items ≡ map string_bytes texts.now) }
{
    let mut copies = Vec::new(alloc);
    for text in texts {
        copies.push(text.clone()?)?;
    }
    Ok(copies)
}

/// Returns a copy of the texts behind the extension marker, if there is one.
///
/// # Errors
///
/// `OutOfMemory` alone.
fn added_copies(
    alloc: Global,
    added: &Option<Vec<String>>,
) -> Result<Option<Vec<String>>, OutOfMemory>
    ensures { IfOk result (λ v. option_map (λ texts. map string_bytes texts.items) v
        ≡ option_map (λ texts. map string_bytes texts.items) added.now) }
{
    match added {
        Some(texts) => Ok(Some(copies(alloc, texts)?)),
        None => Ok(None),
    }
}

/// Returns the shape of an ENUMERATED of these items, and of `added` behind the extension marker,
/// if there is one.
///
/// # Errors
///
/// `OutOfMemory` alone.
pub fn enumerated_shape(
    alloc: Global,
    items: &Vec<String>,
    added: &Option<Vec<String>>,
) -> Result<Shape, OutOfMemory>
    ensures { IfOk result (λ s. shape_view s
        ≡ abstract.Shape.enum (root_items (items_of items.now.items added.now))
        (added_items (items_of items.now.items added.now))) }
{
    let items = copies(alloc, items)?;
    let added = added_copies(alloc, added)?;
    Ok(Shape::Enum { items, added })
}
