//! Names types as the command line does.
ghost use Rattle.asn_command.specs.show.Shown.{shown_name, shown_names};
ghost use Rattle.asn_modules.specs.Modules.{modules_view};
ghost use Rattle.asn_modules.specs.Names.{type_name_view};
ghost use Rattle.std.specs.Prelude.{◌≡◌, IfOk, map, string_bytes};

use asn_core::OutOfMemory;
use asn_modules::{Modules, TypeName};
use std::alloc::Global;

/// Returns the name by which the type is found in the modules: its own where no other type has it,
/// else that of its module, a point and its own.
///
/// # Errors
///
/// `OutOfMemory` alone.
fn shown_name(alloc: Global, modules: &Modules, name: &TypeName) -> Result<String, OutOfMemory>
    ensures { IfOk result (λ s. string_bytes s
        ≡ shown_name (modules_view modules.now).names (type_name_view name.now)) }
{
    let own = name.name.as_str();
    match modules.number(own) {
        Some(_) => Ok(String::from_str(alloc, own)?),
        None => {
            let home = name.module.as_str();
            Ok(format!(in alloc; "{home}.{own}")?)
        }
    }
}

/// Returns the names by which these types of the modules are found, in their order.
///
/// # Errors
///
/// `OutOfMemory` alone.
fn names_among(
    alloc: Global,
    modules: &Modules,
    names: &[TypeName],
) -> Result<Vec<String>, OutOfMemory>
    ensures { IfOk result (λ found. map string_bytes found.items
        ≡ map (shown_name (modules_view modules.now).names) (map type_name_view names.now)) }
{
    let mut found = Vec::new(alloc);
    for name in names {
        let shown = shown_name(alloc, modules, name)?;
        found.push(shown)?;
    }
    Ok(found)
}

/// Returns the names by which the types of the modules are found, in the order of their numbers.
///
/// # Errors
///
/// `OutOfMemory` alone.
pub fn shown_names(alloc: Global, modules: &Modules) -> Result<Vec<String>, OutOfMemory>
    ensures { IfOk result (λ names.
        map string_bytes names.items ≡ shown_names (modules_view modules.now).names) }
{
    names_among(alloc, modules, modules.names())
}
