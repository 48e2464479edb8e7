//! Copies what stands in a shape beside its parts.
ghost use Rattle.asn_linked_types.specs.expander.Leaves.{is_leaf};
ghost use Rattle.asn_model.specs.Shape as spec;
ghost use Rattle.asn_model.specs.ShapeView.{plain_view, presence_view, shape_view};
ghost use Rattle.std.specs.Prelude.{◌≡◌, IfOk, map, option_map, string_bytes, true};

use asn_core::OutOfMemory;
use asn_model::{Plain, PresenceShape, Shape};

/// Returns a copy of a shape without parts and names.
pub fn copy_of_leaf(leaf: &Shape) -> Shape
    requires { is_leaf (shape_view leaf.now) ≡ true }
    ensures { shape_view result ≡ shape_view leaf.now }
{
    match leaf {
        Shape::Null => Shape::Null,
        Shape::Bool => Shape::Bool,
        Shape::Int {
            least,
            greatest,
            width,
        } => Shape::Int {
            least: *least,
            greatest: *greatest,
            width: *width,
        },
        Shape::Bits { fixed } => Shape::Bits { fixed: *fixed },
        Shape::Octets => Shape::Octets,
        Shape::Any => Shape::Any,
        Shape::Oid => Shape::Oid,
        Shape::Str { alphabet } => Shape::Str {
            alphabet: *alphabet,
        },
        Shape::Bmp => Shape::Bmp,
        Shape::Utc => Shape::Utc,
        Shape::Gen => Shape::Gen,
        Shape::Day => Shape::Day,
        Shape::Decimal => Shape::Decimal,
        _ => unreachable!(),
    }
}

/// Returns a copy of an ENUMERATED.
///
/// # Errors
///
/// Where memory runs out.
pub fn copy_of_items(items: &Vec<String>, added: &Option<Vec<String>>) -> Result<Shape, OutOfMemory>
    ensures { IfOk result (λ s. shape_view s ≡ spec.Shape.enum (map string_bytes items.now.items)
        (option_map (λ v. map string_bytes v.items) added.now)) }
{
    let items = items.clone()?;
    match added {
        Some(added) => {
            let added = added.clone()?;
            Ok(Shape::Enum {
                items,
                added: Some(added),
            })
        }
        None => Ok(Shape::Enum { items, added: None }),
    }
}

/// Returns a copy of what states whether a field may be absent.
///
/// # Errors
///
/// Where memory runs out.
pub fn copy_of_presence(presence: &PresenceShape) -> Result<PresenceShape, OutOfMemory>
    ensures { IfOk result (λ p. presence_view p ≡ presence_view presence.now) }
{
    match presence {
        PresenceShape::Required => Ok(PresenceShape::Required),
        PresenceShape::Optional => Ok(PresenceShape::Optional),
        PresenceShape::Default(value) => Ok(PresenceShape::Default(copy_of_default(value)?)),
    }
}

/// Returns a copy of the value of a DEFAULT.
///
/// # Errors
///
/// Where memory runs out.
fn copy_of_default(value: &Plain) -> Result<Plain, OutOfMemory>
    ensures { IfOk result (λ p. plain_view p ≡ plain_view value.now) }
{
    match value {
        Plain::Bool(truth) => Ok(Plain::Bool(*truth)),
        Plain::Int(number) => Ok(Plain::Int(*number)),
        Plain::Text(text) => Ok(Plain::Text(text.clone()?)),
        Plain::Item(identifier) => Ok(Plain::Item(identifier.clone()?)),
    }
}
