//! Lists the types of modules.
ghost use Rattle.asn_command.specs.Listings.{full_name, types_line, types_text};
ghost use Rattle.asn_modules.specs.Modules.{modules_view};
ghost use Rattle.asn_modules.specs.Names.{type_name_view};
ghost use Rattle.std.specs.Prelude.{◌≡◌, IfOk, string_bytes};

use crate::listing::{TypeText, texts_on};
use asn_core::OutOfMemory;
use asn_model::Shape;
use asn_modules::{Modules, TypeName, is_without_values};
use asn_type_printing::words::kind_word;
use std::alloc::Global;

/// Returns the name of the type after that of its module and a point, or alone where it is in no
/// module.
///
/// # Errors
///
/// `OutOfMemory` alone.
pub fn full_name(alloc: Global, name: &TypeName) -> Result<String, OutOfMemory>
    ensures { IfOk result (λ s. string_bytes s ≡ full_name (type_name_view name.now)) }
{
    let home = name.module.as_str();
    let name = name.name.as_str();
    if home.is_empty() {
        return Ok(String::from_str(alloc, name)?);
    }
    Ok(format!(in alloc; "{home}.{name}")?)
}

/// Makes the line on a type: its name, a blank and its kind.
struct Kinds;

impl TypeText for Kinds {
    ghost text = { types_line };

    fn text_on(alloc: Global, name: &TypeName, shape: &Shape) -> Result<String, OutOfMemory> {
        let name = full_name(alloc, name)?;
        if is_without_values(shape) {
            return Ok(format!(in alloc; "{name} (no values)\n")?);
        }
        let kind = kind_word(shape);
        Ok(format!(in alloc; "{name} {kind}\n")?)
    }
}

/// Returns a line for each type of the modules, in the order in which they are assigned: its name,
/// a blank and its kind.
///
/// # Errors
///
/// `OutOfMemory` alone.
pub fn types_text(alloc: Global, modules: &Modules) -> Result<String, OutOfMemory>
    ensures { IfOk result (λ s. string_bytes s ≡ types_text (modules_view modules.now)) }
{
    texts_on::<Kinds>(alloc, modules)
}
