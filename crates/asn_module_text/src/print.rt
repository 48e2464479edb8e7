//! Prints modules.
ghost use Rattle.asn_module_text.specs.Appending.{Appends};
ghost use Rattle.asn_module_text.specs.Modules.{IsModule, IsProper};
ghost use Rattle.asn_notation.specs.Notation as spec;
ghost use Rattle.asn_notation.specs.Printed.{assignment_text, module_text};
ghost use Rattle.asn_notation.specs.View.{assignment_view, module_view};
ghost use Rattle.std.specs.Prelude.{◌≡◌, ◌++◌, ◌↔◌, IfOk, List, OnOk, map, string_bytes};
ghost use Rattle.std.specs.Str.{chars};

use crate::write::{write_notation, write_word};
use asn_core::OutOfMemory;
use asn_notation::limits::NESTING_LIMIT;
use asn_notation::{Assignment, Module};
use std::alloc::Global;

/// Writes the line of an assignment.
///
/// # Errors
///
/// `OutOfMemory` alone.
fn write_assignment(out: &mut String, assignment: &Assignment) -> Result<(), OutOfMemory>
    ensures { OnOk result (Appends (string_bytes out.old) (string_bytes out.new)
        (λ rest. assignment_text (assignment_view assignment.now) rest)) }
{
    out.push_str(assignment.name.as_str())?;
    write_word(out, "::=")?;
    write_notation(out, &assignment.notation)?;
    out.push('\n')?;
    Ok(())
}

/// Writes the lines of assignments.
///
/// # Errors
///
/// `OutOfMemory` alone.
fn write_assignments(out: &mut String, assignments: &[Assignment]) -> Result<(), OutOfMemory>
    ensures { OnOk result (string_bytes out.new
        ≡ string_bytes out.old ++ module_text (map assignment_view assignments.now)) }
{
    for assignment in assignments {
        write_assignment(out, assignment)?;
    }
    Ok(())
}

/// Returns the text of the module, which has a line for each assignment. Reading it gives the
/// module again, and no other module has it.
///
/// # Errors
///
/// `OutOfMemory` alone.
pub fn print_module(alloc: Global, module: &Module) -> Result<String, OutOfMemory>
    requires { IsProper NESTING_LIMIT (module_view «module».now) }
    ensures text { IfOk result (λ t. string_bytes t ≡ module_text (module_view «module».now)) }
    ensures read_again { IfOk result (λ t.
        IsModule NESTING_LIMIT (chars (string_bytes t)) (module_view «module».now)) }
    ensures one_module { IfOk result (λ t. (other : List spec.Assignment)
        → IsProper NESTING_LIMIT other
        → (string_bytes t ≡ module_text other) ↔ (module_view «module».now ≡ other)) }
{
    let mut out = String::new(alloc);
    write_assignments(&mut out, &module.assignments)?;
    Ok(out)
}
