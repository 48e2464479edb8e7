//! Finds what breaks a rule in the numbers of a list.
ghost use Rattle.asn_modules_rules.specs.numbers.Faults.{bits_fault, enumerated_fault, items_fault};
ghost use Rattle.asn_modules_rules.specs.numbers.Numbered.{numbered_bits};
ghost use Rattle.std.specs.Prelude.{◌≡◌, IfOk};

use crate::numbers::faults::{first_falling, first_negative, first_repeated};
use crate::numbers::numbered::{Numbered, numbered_bits, numbered_items, numbers_of};
use crate::numbers::stated::stated_numbers;
use asn_lexer::Token;
use asn_modules_errors::NameRule;
use asn_modules_grammar::notation::{Item, NamedNumber};
use std::alloc::{AllocError, Global};

/// Is a rule, with the name that breaks it.
pub type Broken = (NameRule, Token);

/// Returns the first bit that is negative, else the first with the number of one before it.
///
/// # Errors
///
/// Where memory runs out.
pub fn bits_fault(
    alloc: Global,
    text: &str,
    bits: &[NamedNumber],
) -> Result<Option<Broken>, AllocError>
    ensures { IfOk result (λ found. found ≡ bits_fault (numbered_bits text.now bits.now)) }
{
    let numbered = numbered_bits(alloc, text, bits)?;
    if let Some(name) = first_negative(numbered.as_slice()) {
        return Ok(Some((NameRule::BitNegative, name)));
    }
    match first_repeated(alloc, numbered.as_slice())? {
        Some(name) => Ok(Some((NameRule::BitTwice, name))),
        None => Ok(None),
    }
}

/// Returns the first item with the number of one before it, else the first extension addition whose
/// number is below that of the one before it.
///
/// # Errors
///
/// Where memory runs out.
fn items_fault(
    alloc: Global,
    root: Vec<Numbered>,
    added: &[Numbered],
) -> Result<Option<Broken>, AllocError>
    ensures { IfOk result (λ found. found ≡ items_fault root.items added.now) }
{
    let mut all = root;
    all.extend_from_slice(added)?;
    if let Some(name) = first_repeated(alloc, all.as_slice())? {
        return Ok(Some((NameRule::NumberTwice, name)));
    }
    match first_falling(added) {
        Some(name) => Ok(Some((NameRule::NumberNotRising, name))),
        None => Ok(None),
    }
}

/// Returns what breaks a rule in the numbers of these items, unless one isn't known.
///
/// # Errors
///
/// Where memory runs out.
pub fn enumerated_fault(
    alloc: Global,
    text: &str,
    items: &[Item],
    added: &[Item],
) -> Result<Option<Broken>, AllocError>
    ensures { IfOk result (λ found. found ≡ enumerated_fault text.now items.now added.now) }
{
    let stated = stated_numbers(alloc, text, items)?;
    let Some(root) = numbered_items(alloc, false, text, stated.as_slice(), items)? else {
        return Ok(None);
    };
    let numbers = numbers_of(alloc, root.as_slice())?;
    let Some(added) = numbered_items(alloc, true, text, numbers.as_slice(), added)? else {
        return Ok(None);
    };
    items_fault(alloc, root, added.as_slice())
}
