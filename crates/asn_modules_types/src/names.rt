//! Holds what names stand for, and follows the names of types.
ghost use Rattle.asn_model.specs.ShapeView.{shape_view};
ghost use Rattle.asn_modules_reader.specs.Views.{base_view};
ghost use Rattle.asn_modules_types.specs.Known.{KnowsNames, scope_view, sources_of};
ghost use Rattle.asn_modules_types.specs.Linked.{is_numbered, named_type, no_roots};
ghost use Rattle.asn_modules_types.specs.Types.{base_shape};
ghost use Rattle.std.specs.Prelude.{◌≡◌, IfOk, MatchOption, false, true};

use crate::assigned::{Assigned, assigned_at, notation_of};
use crate::fault::LinkFault;
use crate::leaves::{integer_shape, leaf_shape};
use crate::named_numbers::NamedNumbers;
use crate::scope::{Scope, find};
use crate::sizes::sized;
use asn_linked_types::no_values;
use asn_model::Shape;
use asn_modules_grammar::notation::Base;
use asn_modules_names::lookup::Index;
use asn_modules_reader::text::Source;
use std::alloc::Global;

/// Holds the types and values that names stand for.
#[derive(Drop)]
pub struct Names<'s, 't> {
    /// Provides memory.
    pub alloc: Global,
    /// Lists the texts.
    pub sources: &'s [Source<'t>],
    /// Holds the numbers of types beside their names.
    pub type_index: &'s Index<'t>,
    /// Holds the numbers of values beside their names.
    pub value_index: &'s Index<'t>,
    /// Holds the numbers of types with parameters beside their names.
    pub template_index: &'s Index<'t>,
    /// Lists the types that are assigned.
    pub types: &'s [Assigned<'s, 't>],
    /// Lists the values that are assigned.
    pub values: &'s [Assigned<'s, 't>],
    /// Lists the types with parameters that are assigned.
    pub templates: &'s [Assigned<'s, 't>],
    /// Holds the named numbers of the types that are assigned.
    pub numbers: &'s NamedNumbers<'t>,
}

/// Returns what the name of the type of the number stands for, past at most so many names: its
/// number where it has parts or items, else its shape.
///
/// # Errors
///
/// Only `OutOfMemory`.
#[cycle(follow)]
pub fn named_type(names: &Names<'_, '_>, more: usize, number: usize) -> Result<Shape, LinkFault>
    requires known { KnowsNames names.now }
    ensures { IfOk result (λ s.
        shape_view s ≡ named_type (sources_of names.now) more number) }
{
    if more == 0 {
        return Ok(no_values(names.alloc));
    }
    match assigned_at(names.types, number) {
        Some(assigned) => {
            let scope = Scope {
                names: &*names,
                number: assigned.number,
                home: assigned.home,
                within: false,
                bindings: &[],
            };
            let notation = notation_of(assigned.assignment);
            match unit_shape(&scope, more - 1, &notation.base)? {
                Some(shape) => Ok(sized(&scope, notation.sizes.as_slice(), shape)),
                None => Ok(Shape::Back(number as u32)),
            }
        }
        None => Ok(no_values(names.alloc)),
    }
}

/// Returns the shape of a type without parts and items, where names are followed past at most so
/// many others, or `None` for one that is named by its number.
///
/// # Errors
///
/// Only `OutOfMemory`.
#[cycle(follow)]
pub fn unit_shape(
    scope: &Scope<'_, '_, '_>,
    more: usize,
    base: &Base,
) -> Result<Option<Shape>, LinkFault>
    requires known { KnowsNames scope.now.names.now }
    ensures { IfOk result (λ o. MatchOption o (is_numbered (base_view base.now) ≡ true) (λ s.
        (is_numbered (base_view base.now) ≡ false)
        × (shape_view s
        ≡ base_shape no_roots (scope_view more scope.now) (base_view base.now)))) }
{
    match base {
        Base::Leaf(leaf) => Ok(Some(leaf_shape(scope.names.alloc, *leaf))),
        Base::Integer(_) => Ok(Some(integer_shape())),
        Base::BitString(_) => Ok(Some(Shape::Bits { fixed: None })),
        Base::Reference { module, name } => match find(scope, *module, *name) {
            Some(number) => Ok(Some(named_type(scope.names, more, number)?)),
            None => Ok(Some(no_values(scope.names.alloc))),
        },
        Base::Enumerated { .. } => Ok(None),
        Base::Sequence(_) => Ok(None),
        Base::Set(_) => Ok(None),
        Base::SequenceOf(_) => Ok(None),
        Base::SetOf(_) => Ok(None),
        Base::Choice(_) => Ok(None),
        Base::Instance { .. } => Ok(None),
    }
}
