//! Checks that names of values lead to values.
ghost use Rattle.asn_modules_names.specs.lookup.Homes.{home_view};
ghost use Rattle.asn_modules_names.specs.lookup.Indexes.{IsIndexOf};
ghost use Rattle.asn_modules_names.specs.declared.lookup.sort.Sort.TheVariants.{Values};
ghost use Rattle.asn_modules_errors.specs.declared.cause.NameRule.TheVariants as name_rule;
ghost use Rattle.asn_modules_names.specs.Faults.{Checks, Tells, fault_of};
ghost use Rattle.asn_modules_names.specs.Mentions.{Source};
ghost use Rattle.asn_modules_rules.specs.values.Leads.{leads, next_at};
ghost use Rattle.asn_modules_rules.specs.values.ValueLinks.{endless_from, first_endless_in, link_view};
ghost use Rattle.asn_modules_rules.specs.values.ValueLinks.{links_of};
ghost use Rattle.std.specs.Prelude.{◌≡◌, ℕ, IfOk, List, Some, is_some, length, map};

use crate::values::leads::{leads_past, next_at};
use crate::values::links::{ValueLink, links_of};
use asn_modules_errors::{ModuleError, NameRule};
use asn_modules_names::broken;
use asn_modules_names::lookup::{Home, Index};
use std::alloc::{AllocError, Global};

/// Returns the numbers of the values that these are the names of.
///
/// # Errors
///
/// Where memory runs out.
fn nexts_of(alloc: Global, links: &[ValueLink<'_>]) -> Result<Vec<Option<usize>>, AllocError>
    ensures { IfOk result (λ nexts. nexts.items ≡ map (λ l. l.next) (map link_view links.now)) }
{
    let mut nexts = Vec::new(alloc);
    for link in links {
        nexts.push(link.next)?;
    }
    Ok(nexts)
}

/// Returns where each of these values leads past as many others as there are.
///
/// # Errors
///
/// Where memory runs out.
fn ends_of(alloc: Global, links: &[ValueLink<'_>]) -> Result<Vec<Option<usize>>, AllocError>
    ensures { IfOk result (λ ends. (n : ℕ) → next_at ends.items n
        ≡ leads (map (λ l. l.next) (map link_view links.now)) (length links.now) n) }
{
    let nexts = nexts_of(alloc, links)?;
    let table = nexts.as_slice();
    let count = links.len();
    let ends = leads_past(alloc, table, count)?;
    Ok(ends)
}

/// Returns whether the value of the number leads to another one in the end.
fn leads_on(ends: &[Option<usize>], number: usize) -> bool
    ensures { result ≡ is_some (next_at ends.now number) }
{
    next_at(ends, number).is_some()
}

/// Returns the error that the value leads to no value.
fn endless(alloc: Global, link: &ValueLink<'_>) -> ModuleError
    ensures { Tells (Some (fault_of name_rule.NoValue (link_view link.now).name)) result }
{
    broken(alloc, NameRule::NoValue, link.name)
}

/// Checks that none of these values leads anywhere in the end.
///
/// # Errors
///
/// The name of the first one that does, and `OutOfMemory`.
fn check_ends(
    alloc: Global,
    ends: &[Option<usize>],
    links: &[ValueLink<'_>],
) -> Result<(), ModuleError>
    ensures { Checks (endless_from (λ n. is_some (next_at ends.now n)) 0
        (map link_view links.now)) result }
{
    for (number, link) in links.iter().enumerate() {
        if leads_on(ends, number) {
            return Err(endless(alloc, link));
        }
    }
    Ok(())
}

/// Checks that no value is the name of a value that is the name of another one, and so on without
/// an end, by the index of values.
///
/// # Errors
///
/// The name of the first value that is so, and `OutOfMemory`.
pub fn check_values<'t>(
    alloc: Global,
    index: &Index<'t>,
    homes: &[Home<'_, 't>],
) -> Result<(), ModuleError>
    ensures { (ss : List Source) → IsIndexOf Values ss index.now
        → Checks (first_endless_in (links_of ss 0 (map home_view homes.now))) result }
{
    let links = links_of(alloc, index, homes)?;
    let all = links.as_slice();
    let ends = ends_of(alloc, all)?;
    let table = ends.as_slice();
    check_ends(alloc, table, all)
}
