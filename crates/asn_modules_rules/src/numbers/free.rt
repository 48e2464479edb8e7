//! Finds numbers that aren't taken.
ghost use Rattle.asn_modules_rules.specs.numbers.Numbered.{Holds, above, free_from, next_behind};
ghost use Rattle.asn_modules_rules.specs.numbers.Numbered.{number_or_free};
ghost use Rattle.std.specs.Prelude.{◌≡◌, ℕ, ℤ, pos, ◌+◌, ◌^◌, ◌≤ℤ◌, ◌<ℤ◌, IfOk, List, length};

use std::alloc::{AllocError, Global};
use std::collections::HashSet;

/// Returns the numbers as a set.
///
/// # Errors
///
/// Where memory runs out.
pub fn set_of(alloc: Global, numbers: &[i128]) -> Result<HashSet<i128>, AllocError>
    ensures { IfOk result (λ set. Holds set numbers.now) }
{
    let set: HashSet<i128> = numbers.iter().copied().collect(alloc)?;
    Ok(set)
}

/// Returns the first number from this one on that isn't one of those taken, of which there are so
/// many.
fn free_from(taken: &HashSet<i128>, count: usize, first: i128) -> i128
    requires least { pos 0 ≤ℤ first }
    requires greatest { first ≤ℤ pos (2 ^ 64) }
    ensures free { (numbers : List ℤ) → Holds taken.now numbers → length numbers ≡ count
        → result ≡ free_from numbers first }
    ensures least { pos 0 ≤ℤ result }
{
    let mut number = first;
    for _step in 0..count {
        if !taken.contains(&number) {
            return number;
        }
        number += 1;
    }
    number
}

/// Returns the number of an item: the one that it states, else the first from `next` on that isn't
/// one of those taken, of which there are so many.
pub fn number_or_free(taken: &HashSet<i128>, count: usize, next: i128, number: Option<i128>) -> i128
    requires least { pos 0 ≤ℤ next }
    requires greatest { next ≤ℤ pos (2 ^ 64) }
    ensures { (numbers : List ℤ) → Holds taken.now numbers → length numbers ≡ count
        → result ≡ number_or_free numbers next number }
{
    match number {
        Some(number) => number,
        None => free_from(taken, count, next),
    }
}

/// Returns the least number above this one that isn't negative.
fn above(number: i128) -> i128
    requires { number <ℤ pos (2 ^ 64) }
    ensures is { result ≡ above number }
    ensures least { pos 0 ≤ℤ result }
    ensures greatest { result ≤ℤ pos (2 ^ 64) }
{
    if number < 0 { 0 } else { number + 1 }
}

/// Returns the least number that the items after one of this number may be given, where `next` was
/// the least for it.
pub fn next_behind(is_added: bool, next: i128, number: i128, stated: Option<i128>) -> i128
    requires small { number <ℤ pos (2 ^ 64) }
    requires least { pos 0 ≤ℤ next }
    requires greatest { next ≤ℤ pos (2 ^ 64) }
    ensures is { result ≡ next_behind is_added next number stated }
    ensures least { pos 0 ≤ℤ result }
    ensures greatest { result ≤ℤ pos (2 ^ 64) }
{
    if is_added || stated.is_none() {
        above(number)
    } else {
        next
    }
}
