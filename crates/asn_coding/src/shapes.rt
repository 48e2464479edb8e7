//! Makes the shape of an ENUMERATED type of the table of its items.
ghost use Rattle.asn_model.specs.Shape.{Shape as AbstractShape};
ghost use Rattle.asn_model.specs.ShapeView.{shape_view};
ghost use Rattle.std.specs.Prelude.{◌≡◌, IfOk, map, option_map, string_bytes};

use asn_core::OutOfMemory;
use asn_model::Shape;
use std::alloc::Global;

/// Returns the ENUMERATED type of these items, and of `added` after the extension marker, if there
/// is one.
///
/// # Errors
///
/// `OutOfMemory` alone.
pub fn enumerated_shape(
    alloc: Global,
    items: &[&'static str],
    added: Option<&'static [&'static str]>,
) -> Result<Shape, OutOfMemory>
    ensures { IfOk result (λ s. shape_view s ≡ AbstractShape.enum (map (λ i. i.now) items.now)
        (option_map (λ t. map (λ i. i.now) t.now) added.entry)) }
{
    let items = texts(alloc, items)?;
    let added = match added {
        Some(added) => Some(texts(alloc, added)?),
        None => None,
    };
    Ok(Shape::Enum { items, added })
}

/// Returns a copy of each text, in order.
///
/// # Errors
///
/// `OutOfMemory` alone.
fn texts(alloc: Global, items: &[&'static str]) -> Result<Vec<String>, OutOfMemory>
    ensures { IfOk result (λ v. map string_bytes v.items ≡ map (λ s. s.now) items.now) }
{
    let mut copies = Vec::new(alloc);
    for item in items {
        copies.push(String::from_str(alloc, item)?)?;
    }
    Ok(copies)
}
