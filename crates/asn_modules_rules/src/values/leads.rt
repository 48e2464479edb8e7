//! Follows numbers that lead to each other.
ghost use Rattle.asn_modules_rules.specs.values.Leads.{leads, next_at};
ghost use Rattle.std.specs.Prelude.{◌≡◌, ℕ, IfOk, map};
ghost use Rattle.std.specs.Option.{option_and_then};

use std::alloc::{AllocError, Global};

/// Returns where the number leads, or `None` where it leads nowhere.
pub fn next_at(nexts: &[Option<usize>], number: usize) -> Option<usize>
    ensures { result ≡ next_at nexts.now number }
{
    match nexts.get(number) {
        Some(next) => *next,
        None => None,
    }
}

/// Returns where the number leads, if there is one.
fn behind(nexts: &[Option<usize>], number: Option<usize>) -> Option<usize>
    ensures { result ≡ option_and_then (next_at nexts.now) number }
{
    match number {
        Some(number) => next_at(nexts, number),
        None => None,
    }
}

/// Returns where numbers lead by the first list and then by the second one.
///
/// # Errors
///
/// Where memory runs out.
fn composed(
    alloc: Global,
    first: &[Option<usize>],
    second: &[Option<usize>],
) -> Result<Vec<Option<usize>>, AllocError>
    ensures { IfOk result (λ both.
        both.items ≡ map (option_and_then (next_at second.now)) first.now) }
{
    let mut both = Vec::new(alloc);
    for next in first {
        both.push(behind(second, *next))?;
    }
    Ok(both)
}

/// Returns a copy of the list.
///
/// # Errors
///
/// Where memory runs out.
fn copy_of(alloc: Global, nexts: &[Option<usize>]) -> Result<Vec<Option<usize>>, AllocError>
    ensures { IfOk result (λ copy. copy.items ≡ nexts.now) }
{
    let mut copy = Vec::new(alloc);
    for next in nexts {
        copy.push(*next)?;
    }
    Ok(copy)
}

/// Returns where each number leads past this number of others.
///
/// # Errors
///
/// Where memory runs out.
#[cycle(past)]
pub fn leads_past(
    alloc: Global,
    nexts: &[Option<usize>],
    others: usize,
) -> Result<Vec<Option<usize>>, AllocError>
    ensures { IfOk result (λ ends.
        (n : ℕ) → next_at ends.items n ≡ leads nexts.now others n) }
{
    if others == 0 {
        let copy = copy_of(alloc, nexts)?;
        return Ok(copy);
    }
    let count = (others - 1) / 2;
    let half = leads_past(alloc, nexts, count)?;
    let table = half.as_slice();
    // These lead past the half, one more, and the half again.
    let twice = composed(alloc, table, table)?;
    let rest = others % 2;
    if rest == 1 {
        return Ok(twice);
    }
    let behind = twice.as_slice();
    let ends = composed(alloc, nexts, behind)?;
    Ok(ends)
}
