//! Prints assignments.
ghost use Rattle.asn_model.specs.ShapeView.{shape_view};
ghost use Rattle.asn_type_printing.specs.Printed.{assignment_text, types_text};
ghost use Rattle.asn_type_printing.specs.Reached.{reached};
ghost use Rattle.std.specs.List.{flat_map};
ghost use Rattle.std.specs.Prelude.{◌≡◌, ◌++◌, IfOk, OnOk, map, string_bytes};

use crate::level::Level;
use crate::reached::reached;
use crate::write::{name_at, write_type};
use asn_core::OutOfMemory;
use asn_model::Shape;
use std::alloc::Global;

/// Writes the assignment of the type of a number, if there is one.
///
/// # Errors
///
/// Where memory runs out.
fn write_assignment(
    number: usize,
    names: &[String],
    types: &[Shape],
    out: &mut String,
) -> Result<(), OutOfMemory>
    ensures { OnOk result (string_bytes out.new ≡ string_bytes out.old
        ++ assignment_text (map string_bytes names.now) (map shape_view types.now) number) }
{
    match types.get(number) {
        Some(shape) => {
            out.push_str(name_at(names, number))?;
            out.push_str(" ::= ")?;
            write_type(shape, names, &Level::Outermost, out)?;
            Ok(out.push_str("\n")?)
        }
        None => Ok(()),
    }
}

/// Writes the assignments of the types of these numbers.
///
/// # Errors
///
/// Where memory runs out.
fn write_assignments(
    numbers: &[usize],
    names: &[String],
    types: &[Shape],
    out: &mut String,
) -> Result<(), OutOfMemory>
    ensures { OnOk result (string_bytes out.new ≡ string_bytes out.old
        ++ flat_map (assignment_text (map string_bytes names.now) (map shape_view types.now))
        numbers.now) }
{
    for number in numbers {
        write_assignment(*number, names, types, out)?;
    }
    Ok(())
}

/// Returns the assignment of the type of a number and those of all types that it reaches, each
/// once, in the order in which they are first met, where the types that one type names come before
/// those that they name themselves. In the types `Shape::Back` of a number names the type of that
/// number, whose name has the same place among the names.
///
/// What is printed can be read again as types with the same values if no two of them have the same
/// name: constraints that change no value, tags and names of numbers are left out. A type without
/// values is printed as `EXTERNAL -- no values are read --`, since no value of EXTERNAL is read.
///
/// # Errors
///
/// Where memory runs out.
pub fn printed_types(
    alloc: Global,
    names: &[String],
    types: &[Shape],
    number: usize,
) -> Result<String, OutOfMemory>
    ensures { IfOk result (λ s. string_bytes s
        ≡ types_text (map string_bytes names.now) (map shape_view types.now) number) }
{
    let numbers = reached(alloc, types, number)?;
    let mut out = String::new(alloc);
    write_assignments(numbers.as_slice(), names, types, &mut out)?;
    Ok(out)
}
