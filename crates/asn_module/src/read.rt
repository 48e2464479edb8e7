//! Reads a text as a module.
ghost use Rattle.asn_module.specs.Faults.{IsRefusal, NamesFail};
ghost use Rattle.asn_module_text.specs.Modules.{IsModule, IsProper};
ghost use Rattle.asn_notation.specs.Names.{first_repeated, first_unassigned};
ghost use Rattle.asn_notation.specs.View.{module_view};
ghost use Rattle.std.specs.Prelude.{◌≡◌, None, OnOk, IfOk, IfErr};
ghost use Rattle.std.specs.Str.{chars};

use crate::fault::ModuleFault;
use crate::names::{first_unplaced, places_of};
use asn_module_reader::read_assignments;
use asn_notation::Module;
use asn_notation::limits::NESTING_LIMIT;
use std::alloc::Global;

/// Checks that the names of the types are distinct, and that each name that is referred to is
/// assigned.
///
/// # Errors
///
/// `Duplicate` with the first name that was assigned before, else `Unknown` with the first one that
/// isn't assigned, and `OutOfMemory`.
fn check_names(alloc: Global, candidate: &Module) -> Result<(), ModuleFault>
    ensures distinct { OnOk result (first_repeated (module_view candidate.now) ≡ None) }
    ensures assigned { OnOk result (first_unassigned (module_view candidate.now) ≡ None) }
    ensures fault { IfErr result (λ e. NamesFail (module_view candidate.now) e) }
{
    let places = places_of(alloc, &candidate.assignments)?;
    for assignment in &candidate.assignments {
        if let Some(name) = first_unplaced(&assignment.notation, &places) {
            return Err(ModuleFault::Unknown(String::from_str(alloc, name)?));
        }
    }
    Ok(())
}

/// Returns the module that the text stands for by the grammar (X.680, section 16, in a profile).
///
/// # Errors
///
/// `Syntax` exactly where the text is not in the grammar, else `Duplicate` exactly where a name is
/// assigned again, with the first such name, else `Unknown` exactly where a name is referred to and
/// not assigned, with the first such name. `OutOfMemory` may come in place of any answer.
pub fn read_module(alloc: Global, input: &str) -> Result<Module, ModuleFault>
    ensures ok { IfOk result (λ m. IsModule NESTING_LIMIT (chars input.now) (module_view m)) }
    ensures proper { IfOk result (λ m. IsProper NESTING_LIMIT (module_view m)) }
    ensures refused { IfErr result (λ e. IsRefusal NESTING_LIMIT (chars input.now) e) }
{
    let module = read_assignments(alloc, input)?;
    check_names(alloc, &module)?;
    Ok(module)
}
