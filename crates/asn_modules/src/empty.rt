//! Tells the type without values.
ghost use Rattle.asn_model.specs.ShapeView.{shape_view};
ghost use Rattle.asn_modules.specs.Empty.{is_without_values};
ghost use Rattle.std.specs.Prelude.{◌≡◌};

use asn_model::Shape;

/// Returns whether the shape is the type without values, an ENUMERATED without items.
pub fn is_without_values(shape: &Shape) -> bool
    ensures { result ≡ is_without_values (shape_view shape.now) }
{
    match shape {
        Shape::Enum { items, added: None } => items.is_empty(),
        _ => false,
    }
}
