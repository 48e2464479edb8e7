//! Checks that no name is too large for COMPONENTS OF.
ghost use Rattle.asn_modules_rules.specs.included.TooLarge.{IsChecked, counted_in, first_too_large_in, is_small};
ghost use Rattle.asn_modules_rules.specs.included.Types.{type_view, types_of};
ghost use Rattle.asn_modules_names.specs.lookup.Homes.{home_view};
ghost use Rattle.asn_modules_names.specs.lookup.Indexes.{IsIndexOf};
ghost use Rattle.asn_modules_names.specs.declared.lookup.sort.Sort.TheVariants.{Types};
ghost use Rattle.asn_modules_names.specs.Faults.{Checks};
ghost use Rattle.asn_modules_names.specs.Mentions.{Source};
ghost use Rattle.asn_modules_grammar.specs.notation.View.{notation_view};
ghost use Rattle.std.specs.Prelude.{◌≡◌, List, map};

use crate::included::count::{past_type, past_type_name};
use crate::included::limits::{
    INCLUDED_LEVEL_LIMIT, INCLUDED_SIZE_LIMIT, INSTANCE_SIZE, NAME_LIMIT,
};
use crate::included::scope::{Depth, Scope};
use crate::included::types::{AssignedType, stands_for, types_of};
use asn_modules_errors::{ModuleError, NameRule};
use asn_modules_grammar::notation::Notation;
use asn_modules_names::lookup::{Home, Index};
use asn_modules_names::{broken, mention_of};
use std::alloc::Global;

/// Returns whether the type in the module of the number counts as little as one with actual
/// parameters may that stands in place of a name, by the index of types.
pub fn is_small<'t>(
    index: &Index<'t>,
    number: usize,
    home: Home<'_, 't>,
    notation: &Notation,
) -> bool
    ensures { (ss : List Source) → IsIndexOf Types ss index.now
        → result ≡ is_small ss number (home_view home.entry) (notation_view notation.now) }
{
    let scope = Scope {
        index,
        types: &[],
        number,
        home,
    };
    let depth = Depth {
        names: 0,
        levels: INCLUDED_LEVEL_LIMIT,
    };
    past_type(&scope, depth, INSTANCE_SIZE, notation).is_some()
}

/// Checks the names after COMPONENTS OF in the type, where so many bytes are left, and returns how
/// many are left after them.
///
/// # Errors
///
/// The first name that is too large, and `OutOfMemory`.
fn check_type(
    alloc: Global,
    index: &Index<'_>,
    types: &[AssignedType<'_, '_>],
    left: usize,
    within: &AssignedType<'_, '_>,
) -> Result<usize, ModuleError>
    ensures { (ss : List Source) → IsIndexOf Types ss index.now → IsChecked ss
        (map type_view types.now) left (counted_in (type_view within.now)) result }
{
    let scope = Scope {
        index,
        types,
        number: within.number,
        home: within.home,
    };
    let depth = Depth {
        names: NAME_LIMIT,
        levels: INCLUDED_LEVEL_LIMIT,
    };
    let names = within.behind.as_slice();
    let mut rest = left;
    for name in names {
        let Some(fewer) = past_type_name(&scope, depth, rest, *name) else {
            let mention = mention_of(within.home.source, name.name);
            return Err(broken(alloc, NameRule::TooLarge, mention));
        };
        rest = fewer;
    }
    Ok(rest)
}

/// Checks the names after COMPONENTS OF in these types.
///
/// # Errors
///
/// The first name that is too large, and `OutOfMemory`.
fn check_types(
    alloc: Global,
    index: &Index<'_>,
    types: &[AssignedType<'_, '_>],
) -> Result<(), ModuleError>
    ensures { (ss : List Source) → IsIndexOf Types ss index.now
        → Checks (first_too_large_in ss (map type_view types.now)) result }
{
    let mut left = INCLUDED_SIZE_LIMIT;
    for assigned in types {
        let within = stands_for(types, NAME_LIMIT, assigned);
        left = check_type(alloc, index, types, left, within)?;
    }
    Ok(())
}

/// Checks that COMPONENTS OF includes neither more bytes than the limit, over all types that are
/// assigned, nor more levels of types than the limit, by the index of types.
///
/// # Errors
///
/// The first name after COMPONENTS OF that is too large, and `OutOfMemory`.
pub fn check_included<'t>(
    alloc: Global,
    index: &Index<'t>,
    homes: &[Home<'_, 't>],
) -> Result<(), ModuleError>
    ensures { (ss : List Source) → IsIndexOf Types ss index.now
        → Checks (first_too_large_in ss (types_of ss 0 (map home_view homes.now))) result }
{
    let types = types_of(alloc, index, homes)?;
    check_types(alloc, index, types.as_slice())
}
