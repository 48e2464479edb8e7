//! Makes a text for each type of modules.
ghost use Rattle.asn_command.specs.Listings.{for_each};
ghost use Rattle.asn_model.specs.Shape.{Shape as AbstractShape};
ghost use Rattle.asn_model.specs.ShapeView.{shape_view};
ghost use Rattle.asn_modules.specs.Modules.{modules_view};
ghost use Rattle.asn_modules.specs.Names.{TypeName as AbstractName, type_name_view};
ghost use Rattle.std.specs.Prelude.{◌≡◌, ℕ, IfOk, List, map, string_bytes};

use asn_core::OutOfMemory;
use asn_model::Shape;
use asn_modules::{Modules, TypeName};
use std::alloc::Global;

/// Makes the text on one type.
pub trait TypeText {
    // The text on the type of this name and shape.
    ghost text: { AbstractName → AbstractShape → List ℕ };

    /// Returns the text on the type.
    ///
    /// # Errors
    ///
    /// `OutOfMemory` alone.
    fn text_on(alloc: Global, name: &TypeName, shape: &Shape) -> Result<String, OutOfMemory>
        ensures { IfOk result (λ s. string_bytes s
            ≡ text (type_name_view name.now) (shape_view shape.now)) };
}

/// Returns the texts on the types of the modules, in the order in which they are assigned.
///
/// # Errors
///
/// `OutOfMemory` alone.
pub fn texts_on<T: TypeText>(alloc: Global, modules: &Modules) -> Result<String, OutOfMemory>
    ensures { IfOk result (λ s. string_bytes s
        ≡ for_each T.text (modules_view modules.now).names (modules_view modules.now).types) }
{
    texts_of::<T>(alloc, modules.names(), modules.types())
}

/// Returns the texts on the types with these names and shapes.
///
/// # Errors
///
/// `OutOfMemory` alone.
fn texts_of<T: TypeText>(
    alloc: Global,
    names: &[TypeName],
    types: &[Shape],
) -> Result<String, OutOfMemory>
    ensures { IfOk result (λ s. string_bytes s
        ≡ for_each T.text (map type_name_view names.now) (map shape_view types.now)) }
{
    let mut lines = String::new(alloc);
    for number in 0..names.len().min(types.len()) {
        let more = T::text_on(alloc, &names[number], &types[number])?;
        lines.push_str(more.as_str())?;
    }
    Ok(lines)
}
