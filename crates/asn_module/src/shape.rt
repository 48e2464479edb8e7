//! Gives the shapes of types that a module assigns.
ghost use Rattle.asn_expansion.specs.Expansion.{type_shape};
ghost use Rattle.asn_growth.specs.Parts.{node_count};
ghost use Rattle.asn_model.specs.Readable.{is_readable};
ghost use Rattle.asn_model.specs.ShapeView.{shape_view};
ghost use Rattle.asn_module.specs.Faults.{HasNoShape};
ghost use Rattle.asn_module_text.specs.Modules.{IsProper};
ghost use Rattle.asn_notation.specs.View.{module_view};
ghost use Rattle.std.specs.Prelude.{◌≡◌, ◌≤◌, IfErr, IfOk, OnOk, Some, true};

use crate::fault::ModuleFault;
use crate::names::places_of;
use asn_expansion::limits::{NODE_LIMIT, OPEN_LIMIT};
use asn_expansion::{ExpansionFault, expand};
use asn_model::{Shape, is_readable_with};
use asn_notation::Module;
use asn_notation::limits::NESTING_LIMIT;
use std::alloc::Global;

/// Returns the shape of the type of this name: each name that it refers to is expanded by the
/// notation that is assigned to it, as a `Loop`, and within that is a `Back`. Tags are automatic.
///
/// # Errors
///
/// `NoSuchName` exactly where the name isn't assigned, else `TooLarge` exactly where the shape has
/// more than 65,536 nodes or opens more than 64 names at once, else `NotReadable` exactly where it
/// can't be read, each with the name. `OutOfMemory` may come in place of any answer.
pub fn module_shape(alloc: Global, module: &Module, name: &str) -> Result<Shape, ModuleFault>
    requires { IsProper NESTING_LIMIT (module_view «module».now) }
    ensures ok { IfOk result (λ s.
        type_shape OPEN_LIMIT (module_view «module».now) name.now ≡ Some (shape_view s)) }
    ensures few { IfOk result (λ s. node_count (shape_view s) ≤ NODE_LIMIT) }
    ensures readable { IfOk result (λ s. is_readable (shape_view s) ≡ true) }
    ensures refused { IfErr result (λ e.
        HasNoShape OPEN_LIMIT NODE_LIMIT (module_view «module».now) name.now e) }
{
    let assignments = module.assignments.as_slice();
    let places = places_of(alloc, assignments)?;
    if !places.contains_key(name) {
        return Err(ModuleFault::NoSuchName(String::from_str(alloc, name)?));
    }
    match expand(alloc, assignments, &places, name) {
        Ok(shape) => {
            if is_readable_with(alloc, &shape) {
                Ok(shape)
            } else {
                Err(ModuleFault::NotReadable(String::from_str(alloc, name)?))
            }
        }
        Err(ExpansionFault::TooLarge) => {
            Err(ModuleFault::TooLarge(String::from_str(alloc, name)?))
        }
        Err(ExpansionFault::OutOfMemory) => Err(ModuleFault::OutOfMemory),
    }
}
