//! Links the types that modules assign.
ghost use Rattle.asn_linked_types.specs.Linked.{are_linked};
ghost use Rattle.asn_model.specs.ShapeView.{shape_view};
ghost use Rattle.asn_modules_names.specs.lookup.Indexes.{IsIndexOf};
ghost use Rattle.asn_modules_names.specs.declared.lookup.sort.Sort.TheVariants.{Types};
ghost use Rattle.asn_modules_names.specs.Mentions.{source_view};
ghost use Rattle.asn_modules_types.specs.Known.{KnowsNames, sources_of};
ghost use Rattle.asn_modules_types.specs.Linked.{linked_type, linked_types, named_type};
ghost use Rattle.asn_modules_types.specs.Linked.{opened_type};
ghost use Rattle.std.specs.Prelude.{◌≡◌, IfOk, length, map, true};

use crate::allowance::{Allowance, Depth};
use crate::assigned::{assigned_at, assigned_of, notation_of, numbers_of};
use crate::fault::LinkFault;
use crate::limits::{INCLUDED_LIMIT, LEVEL_LIMIT, NAME_LIMIT};
use crate::names::{Names, named_type};
use crate::scope::Scope;
use crate::shapes::shape_of;
use asn_linked_types::{TYPE_LIMIT, no_values};
use asn_model::{Shape, is_readable_within_with};
use asn_modules_names::lookup::{Index, Sort, homes_of, index_of};
use asn_modules_reader::text::Source;
use std::alloc::Global;

/// Returns what the name of the type of the number stands for, opened. It takes the types that it
/// makes off those that are left.
///
/// # Errors
///
/// Those of `linked_types`.
fn opened_type(
    names: &Names<'_, '_>,
    left: &mut Allowance,
    number: usize,
) -> Result<Shape, LinkFault>
    requires known { KnowsNames names.now }
    ensures { IfOk result (λ s. shape_view s ≡ opened_type (sources_of names.now)
        (named_type (sources_of names.now) NAME_LIMIT number)) }
{
    match named_type(names, NAME_LIMIT, number)? {
        Shape::Back(place) => match assigned_at(names.types, place as usize) {
            Some(assigned) => {
                let scope = Scope {
                    names: &*names,
                    number: assigned.number,
                    home: assigned.home,
                    within: false,
                    bindings: &[],
                };
                let notation = notation_of(assigned.assignment);
                let depth = Depth {
                    names: NAME_LIMIT,
                    levels: LEVEL_LIMIT,
                };
                shape_of(&scope, depth, left, notation)
            }
            None => Ok(no_values(names.alloc)),
        },
        shape => Ok(shape),
    }
}

/// Returns the shape of the type of the number; it has no values where it can't be read. It takes
/// the types that it makes off those that are left.
///
/// # Errors
///
/// Those of `linked_types`.
fn linked_type(
    names: &Names<'_, '_>,
    left: &mut Allowance,
    number: usize,
) -> Result<Shape, LinkFault>
    requires known { KnowsNames names.now }
    ensures { IfOk result (λ s. shape_view s
        ≡ linked_type (sources_of names.now) (length names.now.types.now) number) }
{
    let shape = opened_type(names, left, number)?;
    if is_readable_within_with(names.alloc, &shape, names.types.len()) {
        Ok(shape)
    } else {
        Ok(no_values(names.alloc))
    }
}

/// Returns the shapes of all types.
///
/// # Errors
///
/// Those of `linked_types`.
fn all_types(names: &Names<'_, '_>) -> Result<Vec<Shape>, LinkFault>
    requires known { KnowsNames names.now }
    ensures { IfOk result (λ types. map shape_view types.items
        ≡ linked_types (sources_of names.now)) }
{
    let mut left = Allowance {
        types: TYPE_LIMIT,
        included: INCLUDED_LIMIT,
    };
    let mut linked = Vec::new(names.alloc);
    for number in 0..names.types.len() {
        linked.push(linked_type(names, &mut left, number)?)?;
    }
    Ok(linked)
}

/// Returns the types that the modules of these texts assign, each as one shape at the place of its
/// number, in which `Shape::Back` of a number stands for the type of that number. A type that names
/// another one alone has the shape of that. A type has no values where it isn't known, isn't read,
/// or breaks a rule of shapes: it is refused where a value reaches it, and the others can be used.
///
/// # Errors
///
/// `TooMany` where there are 2^32 types, or parts of one, or COMPONENTS OF includes more types or
/// nests them deeper than the limits, and `OutOfMemory`.
pub fn linked_types<'t>(
    alloc: Global,
    sources: &[Source<'t>],
    index: &Index<'t>,
) -> Result<Vec<Shape>, LinkFault>
    requires index { IsIndexOf Types (map source_view sources.now) index.now }
    ensures types { IfOk result (λ types. map shape_view types.items
        ≡ linked_types (map source_view sources.now)) }
    // So values can be read and written by them.
    ensures linked { IfOk result (λ types. are_linked (map shape_view types.items) ≡ true) }
{
    let homes = homes_of(alloc, sources)?;
    let types = assigned_of(alloc, Sort::Types, homes.as_slice())?;
    if types.len() >= TYPE_LIMIT {
        return Err(LinkFault::TooMany);
    }
    let values = assigned_of(alloc, Sort::Values, homes.as_slice())?;
    let templates = assigned_of(alloc, Sort::Templates, homes.as_slice())?;
    let value_index = index_of(alloc, Sort::Values, sources)?;
    let template_index = index_of(alloc, Sort::Templates, sources)?;
    let numbers = numbers_of(alloc, types.as_slice())?;
    let names = Names {
        alloc,
        sources,
        type_index: index,
        value_index: &value_index,
        template_index: &template_index,
        types: types.as_slice(),
        values: values.as_slice(),
        templates: templates.as_slice(),
        numbers: &numbers,
    };
    all_types(&names)
}
