//! Copies types to components with DEFAULT: the value of a DEFAULT is one of a shape.
ghost use Rattle.asn_model.specs.ShapeView.{shape_view};
ghost use Rattle.asn_modules_names.specs.lookup.Homes.{home_view};
ghost use Rattle.asn_modules_reader.specs.Views.{base_view};
ghost use Rattle.asn_modules_types.specs.Known.{KnowsNames, sources_of};
ghost use Rattle.asn_modules_types.specs.Linked.{copied_base, copied_type};
ghost use Rattle.asn_modules_types.specs.Types.{component_shape};
ghost use Rattle.std.specs.Prelude.{◌≡◌, IfOk};

use crate::assigned::{assigned_at, notation_of};
use crate::fault::LinkFault;
use crate::leaves::enumerated_shape;
use crate::limits::DEFAULT_ITEMS_LIMIT;
use crate::names::Names;
use crate::scope::Scope;
use asn_model::Shape;
use asn_modules_grammar::notation::{Base, Presence};
use asn_modules_rules::sizes::take_items;

/// Returns a copy of the type of the number, by what it is without tags and sizes, if it is an
/// ENUMERATED whose items take few bytes, else the number.
///
/// # Errors
///
/// Only `OutOfMemory`.
fn copied_base(scope: &Scope<'_, '_, '_>, number: u32, base: &Base) -> Result<Shape, LinkFault>
    ensures { IfOk result (λ s. shape_view s
        ≡ copied_base number (home_view scope.now.home) (base_view base.now)) }
{
    match base {
        Base::Enumerated { items, added } => match take_items(DEFAULT_ITEMS_LIMIT, items, added) {
            Some(_) => Ok(enumerated_shape(scope, items, added)?),
            None => Ok(Shape::Back(number)),
        },
        Base::Leaf(_) => Ok(Shape::Back(number)),
        Base::Integer(_) => Ok(Shape::Back(number)),
        Base::BitString(_) => Ok(Shape::Back(number)),
        Base::Sequence(_) => Ok(Shape::Back(number)),
        Base::Set(_) => Ok(Shape::Back(number)),
        Base::SequenceOf(_) => Ok(Shape::Back(number)),
        Base::SetOf(_) => Ok(Shape::Back(number)),
        Base::Choice(_) => Ok(Shape::Back(number)),
        Base::Reference { .. } => Ok(Shape::Back(number)),
        Base::Instance { .. } => Ok(Shape::Back(number)),
    }
}

/// Returns a copy of the type of the number in the same way.
///
/// # Errors
///
/// Only `OutOfMemory`.
fn copied_type(names: &Names<'_, '_>, number: u32) -> Result<Shape, LinkFault>
    requires known { KnowsNames names.now }
    ensures { IfOk result (λ s. shape_view s ≡ copied_type (sources_of names.now) number) }
{
    match assigned_at(names.types, number as usize) {
        Some(assigned) => {
            let scope = Scope {
                names: &*names,
                number: assigned.number,
                home: assigned.home,
                within: false,
                bindings: &[],
            };
            let notation = notation_of(assigned.assignment);
            copied_base(&scope, number, &notation.base)
        }
        None => Ok(Shape::Back(number)),
    }
}

/// Returns the shape of a component, by that of its type: where it has a DEFAULT and its type is
/// named by a number, a copy of the type of that number, if it is copied.
///
/// # Errors
///
/// Only `OutOfMemory`.
pub fn component_shape(
    names: &Names<'_, '_>,
    presence: Presence,
    shape: Shape,
) -> Result<Shape, LinkFault>
    requires known { KnowsNames names.now }
    ensures { IfOk result (λ s. shape_view s
        ≡ component_shape (copied_type (sources_of names.now)) presence (shape_view shape)) }
{
    match presence {
        Presence::Required => Ok(shape),
        Presence::Optional => Ok(shape),
        Presence::Default(_) => match shape {
            Shape::Back(number) => copied_type(names, number),
            shape => Ok(shape),
        },
    }
}
