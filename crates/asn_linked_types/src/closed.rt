//! Makes the type that stands for one by which nothing is read.
ghost use Rattle.asn_linked_types.specs.Expansion.{no_values};
ghost use Rattle.asn_model.specs.ShapeView.{shape_view};
ghost use Rattle.asn_model.specs.Value.{Fits, Value};
ghost use Rattle.std.specs.Prelude.{◌≡◌};

use asn_model::Shape;
use std::alloc::Global;

/// Returns the type without values, an ENUMERATED without items. It can be read in the place of a
/// type that isn't known or can't be, so that a text is refused where it has a value of that type.
pub fn no_values(alloc: Global) -> Shape
    ensures is { shape_view result ≡ no_values }
    ensures none { (v : Value) → Fits (shape_view result) v → ⊥ }
{
    Shape::Enum {
        items: Vec::new(alloc),
        added: None,
    }
}
