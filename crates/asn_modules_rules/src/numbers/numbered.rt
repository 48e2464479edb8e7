//! Gives items and bits their numbers.
ghost use Rattle.asn_modules_rules.specs.numbers.Numbered.{Holds, if_small, numbered_bits};
ghost use Rattle.asn_modules_rules.specs.numbers.Numbered.{numbered_from, numbered_items, numbers_of};
ghost use Rattle.std.specs.Prelude.{◌≡◌, ℤ, pos, IfOk, List, length};
ghost use Rattle.std.specs.Option.{option_map};

use crate::numbers::free::{next_behind, number_or_free, set_of};
use crate::numbers::stated::{are_plain, item_number, stated};
use asn_lexer::Token;
use asn_modules_grammar::notation::{Item, NamedNumber};
use std::alloc::{AllocError, Global};
use std::collections::HashSet;

/// Is a name with its number.
#[derive(Clone, Copy, Drop)]
pub struct Numbered {
    /// Is the name.
    pub name: Token,
    /// Is the number.
    pub number: i128,
}

/// Returns the numbers alone.
///
/// # Errors
///
/// Where memory runs out.
pub fn numbers_of(alloc: Global, numbered: &[Numbered]) -> Result<Vec<i128>, AllocError>
    ensures { IfOk result (λ numbers. numbers.items ≡ numbers_of numbered.now) }
{
    let mut numbers = Vec::new(alloc);
    for entry in numbered {
        numbers.push(entry.number)?;
    }
    Ok(numbers)
}

/// Returns the items with their numbers, where so many are taken; `None` where one has more than 64
/// bits.
///
/// # Errors
///
/// Where memory runs out.
fn numbered_from(
    alloc: Global,
    is_added: bool,
    text: &str,
    taken: &HashSet<i128>,
    count: usize,
    items: &[Item],
) -> Result<Option<Vec<Numbered>>, AllocError>
    ensures { (numbers : List ℤ) → Holds taken.now numbers → length numbers ≡ count
        → IfOk result (λ found. option_map (λ v. v.items) found
        ≡ if_small (numbered_from is_added text.now numbers (pos 0) items.now)) }
{
    let mut found = Vec::new(alloc);
    let mut next = 0;
    for item in items {
        let stated = item_number(text, *item);
        let number = number_or_free(taken, count, next, stated);
        if number > u64::MAX as i128 {
            return Ok(None);
        }
        next = next_behind(is_added, next, number, stated);
        found.push(Numbered {
            name: item.name,
            number,
        })?;
    }
    Ok(Some(found))
}

/// Returns the items with their numbers, where these are taken; `None` where an item states a
/// number that isn't known, or one has more than 64 bits.
///
/// # Errors
///
/// Where memory runs out.
pub fn numbered_items(
    alloc: Global,
    is_added: bool,
    text: &str,
    taken: &[i128],
    items: &[Item],
) -> Result<Option<Vec<Numbered>>, AllocError>
    ensures { IfOk result (λ found. option_map (λ v. v.items) found
        ≡ numbered_items is_added text.now taken.now items.now) }
{
    if !are_plain(text, items) {
        return Ok(None);
    }
    let set = set_of(alloc, taken)?;
    numbered_from(alloc, is_added, text, &set, taken.len(), items)
}

/// Returns the bits whose numbers are stated in digits of at most 64 bits, with these.
///
/// # Errors
///
/// Where memory runs out.
pub fn numbered_bits(
    alloc: Global,
    text: &str,
    bits: &[NamedNumber],
) -> Result<Vec<Numbered>, AllocError>
    ensures { IfOk result (λ found. found.items ≡ numbered_bits text.now bits.now) }
{
    let mut found = Vec::new(alloc);
    for bit in bits {
        if let Some(number) = stated(text, bit.number) {
            found.push(Numbered {
                name: bit.name,
                number,
            })?;
        }
    }
    Ok(found)
}
