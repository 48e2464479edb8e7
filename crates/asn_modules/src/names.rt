//! Lists the names of the types that modules assign.
ghost use Rattle.asn_modules.specs.Names.{home_name, is_named, number_named};
ghost use Rattle.asn_modules.specs.Names.{type_name_of, type_name_view, type_names};
ghost use Rattle.asn_modules_names.specs.lookup.Homes.{home_view};
ghost use Rattle.asn_modules_names.specs.Mentions.{source_view};
ghost use Rattle.asn_modules_types.specs.Known.{assigned_view};
ghost use Rattle.std.specs.Prelude.{◌≡◌, ◌<◌, ◌++◌, ◌∷◌, IfOk, IfSome, length, map, string_bytes};
ghost use Rattle.std.specs.Str.{bytes_eq};

use asn_modules_grammar::notation::Assignment;
use asn_modules_names::lookup::{Home, Sort, homes_of};
use asn_modules_reader::text::Source;
use asn_modules_types::{Assigned, assigned_of, name_in};
use std::alloc::{AllocError, Global};

/// Is the name of a type that a module assigns.
#[derive(Drop)]
pub struct TypeName {
    /// Is the name of its module, or empty where that has none.
    pub module: String,
    /// Is its name in the module.
    pub name: String,
}

/// Returns the name of the module, or an empty one where it has none.
///
/// # Errors
///
/// Where memory runs out.
fn home_name(alloc: Global, home: Home<'_, '_>) -> Result<String, AllocError>
    ensures { IfOk result (λ s. string_bytes s ≡ home_name (home_view home.entry)) }
{
    match &home.parsed.header {
        Some(header) => name_in(alloc, home.source.text, header.opening.name),
        None => Ok(String::new(alloc)),
    }
}

/// Returns the name of the type.
///
/// # Errors
///
/// Where memory runs out.
fn type_name_of(alloc: Global, assigned: &Assigned<'_, '_>) -> Result<TypeName, AllocError>
    ensures { IfOk result (λ n. type_name_view n ≡ type_name_of (assigned_view assigned.now)) }
{
    let token = match assigned.assignment {
        Assignment::Type { name, .. } => *name,
        Assignment::Value { name, .. } => *name,
        Assignment::Template { name, .. } => *name,
    };
    Ok(TypeName {
        module: home_name(alloc, assigned.home)?,
        name: name_in(alloc, assigned.home.source.text, token)?,
    })
}

/// Returns the names of these types.
///
/// # Errors
///
/// Where memory runs out.
fn names_of(alloc: Global, types: &[Assigned<'_, '_>]) -> Result<Vec<TypeName>, AllocError>
    ensures { IfOk result (λ names. map type_name_view names.items
        ≡ map type_name_of (map assigned_view types.now)) }
{
    let mut names = Vec::new(alloc);
    for assigned in types {
        let name = type_name_of(alloc, assigned)?;
        names.push(name)?;
    }
    Ok(names)
}

/// Returns the names of the types that the modules of the texts assign, in the order of their
/// numbers.
///
/// # Errors
///
/// Where memory runs out.
pub fn type_names(alloc: Global, sources: &[Source<'_>]) -> Result<Vec<TypeName>, AllocError>
    ensures { IfOk result (λ names. map type_name_view names.items
        ≡ type_names (map source_view sources.now)) }
{
    let homes = homes_of(alloc, sources)?;
    let types = assigned_of(alloc, Sort::Types, homes.as_slice())?;
    names_of(alloc, types.as_slice())
}

/// Returns whether the text is the name of the module, a point and the name.
fn is_qualified(text: &[u8], home: &[u8], name: &[u8]) -> bool
    ensures { result ≡ bytes_eq text.now (home.now ++ 46 ∷ name.now) }
{
    let Some(rest) = text.strip_prefix(home) else {
        return false;
    };
    match rest.strip_prefix(b".".as_slice()) {
        Some(rest) => rest == name,
        None => false,
    }
}

/// Returns whether the text names the type: by its name, or by the name of its module, a point, and
/// its name.
fn is_named(name: &TypeName, text: &str) -> bool
    ensures { result ≡ is_named (type_name_view name.now) text.now }
{
    text == name.name.as_str()
        || is_qualified(
            text.as_bytes(),
            name.module.as_bytes(),
            name.name.as_bytes(),
        )
}

/// Returns the number of the one type that the text names, or `None` where it names none or more.
pub fn number_named(names: &[TypeName], text: &str) -> Option<usize>
    ensures named { result ≡ number_named (map type_name_view names.now) text.now }
    ensures below { IfSome result (λ number. number < length names.now) }
{
    let mut found = None;
    for (number, name) in names.iter().enumerate() {
        if is_named(name, text) {
            if let Some(_other) = found {
                return None;
            }
            found = Some(number);
        }
    }
    found
}
