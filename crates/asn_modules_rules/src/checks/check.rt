//! Checks names and numbers, rule by rule.
ghost use Rattle.asn_modules_rules.specs.checks.Checks.{first_broken, first_in_assigned, first_in_lists};
ghost use Rattle.asn_modules_rules.specs.checks.Checks.{first_in_values, first_missing};
ghost use Rattle.asn_modules_names.specs.lookup.Homes as spec;
ghost use Rattle.asn_modules_names.specs.lookup.Homes.{home_view};
ghost use Rattle.asn_modules_names.specs.lookup.Indexes.{IsIndexOf};
ghost use Rattle.asn_modules_names.specs.declared.lookup.sort.Sort.TheVariants.{Types};
ghost use Rattle.asn_modules_names.specs.Faults.{Checks};
ghost use Rattle.asn_modules_names.specs.Mentions.{source_view};
ghost use Rattle.std.specs.Prelude.{◌≡◌, map};

use crate::included::check_included;
use crate::lists::check_lists;
use crate::numbers::check_numbers;
use crate::values::check_values;
use asn_modules_errors::ModuleError;
use asn_modules_names::check_names;
use asn_modules_names::imports::check_imports;
use asn_modules_names::lookup::{Home, Index, Sort, homes_of, index_of};
use asn_modules_names::references::check_references;
use asn_modules_reader::text::Source;
use std::alloc::Global;

/// Checks the names and the numbers in lists.
///
/// # Errors
///
/// The first name that stands twice in its list, else the first number that breaks a rule, and
/// `OutOfMemory`.
fn check_in_lists(alloc: Global, sources: &[Source<'_>]) -> Result<(), ModuleError>
    ensures { Checks (first_in_lists (map source_view sources.now)) result }
{
    check_lists(alloc, sources)?;
    check_numbers(alloc, sources)
}

/// Checks the names of values that values are.
///
/// # Errors
///
/// The first one that its module neither assigns nor imports, else the first one that leads to no
/// value, and `OutOfMemory`.
fn check_value_names<'t>(
    alloc: Global,
    sources: &[Source<'t>],
    homes: &[Home<'_, 't>],
) -> Result<(), ModuleError>
    requires { map home_view homes.now ≡ spec.homes (map source_view sources.now) }
    ensures { Checks (first_in_values (map source_view sources.now)) result }
{
    let index = index_of(alloc, Sort::Values, sources)?;
    check_references(alloc, Sort::Values, &index, homes)?;
    check_values(alloc, &index, homes)
}

/// Checks the names of values that values are, and what COMPONENTS OF includes, by the index of
/// types.
///
/// # Errors
///
/// What is reported of the names of values, else the first name that is too large for COMPONENTS
/// OF, and `OutOfMemory`.
fn check_in_assigned<'t>(
    alloc: Global,
    sources: &[Source<'t>],
    index: &Index<'t>,
    homes: &[Home<'_, 't>],
) -> Result<(), ModuleError>
    requires index { IsIndexOf Types (map source_view sources.now) index.now }
    requires homes { map home_view homes.now ≡ spec.homes (map source_view sources.now) }
    ensures { Checks (first_in_assigned (map source_view sources.now)) result }
{
    check_value_names(alloc, sources, homes)?;
    check_included(alloc, index, homes)
}

/// Checks what is imported, the names of types and values that are referred to, and what COMPONENTS
/// OF includes.
///
/// # Errors
///
/// The first name that is imported against a rule, else the first name of a type that its module
/// neither assigns nor imports, else what is reported of the names of values, else the first name
/// that is too large for COMPONENTS OF, and `OutOfMemory`.
fn check_missing(alloc: Global, sources: &[Source<'_>]) -> Result<(), ModuleError>
    ensures { Checks (first_missing (map source_view sources.now)) result }
{
    let homes = homes_of(alloc, sources)?;
    check_imports(alloc, homes.as_slice())?;
    let index = index_of(alloc, Sort::Types, sources)?;
    check_references(alloc, Sort::Types, &index, homes.as_slice())?;
    check_in_assigned(alloc, sources, &index, homes.as_slice())
}

/// Checks the names and numbers of modules by all rules, over all texts that were read together.
///
/// # Errors
///
/// The first name or number that breaks a rule, with its place, where the rules are in this order:
/// modules have names of their own, and each assigns a name once; no name stands twice in a list;
/// the numbers of items and bits; what is imported is exported by another module; the types that
/// are named are assigned or imported; so are the values; their names lead to values; and
/// COMPONENTS OF includes no more bytes and levels than its limits. `OutOfMemory` where memory runs
/// out.
pub fn check_all(alloc: Global, sources: &[Source<'_>]) -> Result<(), ModuleError>
    ensures { Checks (first_broken (map source_view sources.now)) result }
{
    check_names(alloc, sources)?;
    check_in_lists(alloc, sources)?;
    check_missing(alloc, sources)
}
