//! Reads numbers that are stated in digits.
ghost use Rattle.asn_model.specs.Digits.{digits};
ghost use Rattle.asn_modules_rules.specs.numbers.Numbered.{stated_numbers};
ghost use Rattle.asn_modules_rules.specs.numbers.Stated.{are_plain, is_plain_number, item_number};
ghost use Rattle.asn_modules_rules.specs.numbers.Stated.{stated, within_bits};
ghost use Rattle.std.specs.Prelude.{◌≡◌, IfOk};

use asn_modules_errors::text_of;
use asn_modules_grammar::notation::{Constant, Item};
use std::alloc::{AllocError, Global};

/// Returns the number of decimal digits, if it has at most 64 bits.
pub fn number_of(bytes: &[u8]) -> Option<u64>
    ensures { result ≡ within_bits 64 (digits bytes.now) }
{
    match str::from_utf8(bytes) {
        Ok(text) => {
            if text.starts_with('+') {
                return None;
            }
            text.parse::<u64>().ok()
        }
        // Digits are UTF-8.
        Err(_fault) => None,
    }
}

/// Returns the number that the constant states in decimal digits, if they have at most 64 bits.
pub fn stated(text: &str, constant: Constant) -> Option<i128>
    ensures { result ≡ stated text.now constant }
{
    match constant {
        Constant::Number(number) => {
            let magnitude = number_of(text_of(text, number.digits))?;
            if number.negative {
                Some(-(magnitude as i128))
            } else {
                Some(magnitude as i128)
            }
        }
        Constant::Name(_) => None,
    }
}

/// Returns the number that the item states so.
pub fn item_number(text: &str, item: Item) -> Option<i128>
    ensures { result ≡ item_number text.now item }
{
    match item.number {
        Some(constant) => stated(text, constant),
        None => None,
    }
}

/// Returns whether the number is stated so, or there is none.
fn is_plain_number(text: &str, number: Option<Constant>) -> bool
    ensures { result ≡ is_plain_number text.now number }
{
    match number {
        Some(constant) => stated(text, constant).is_some(),
        None => true,
    }
}

/// Returns whether each of the items states its number so, or states none.
pub fn are_plain(text: &str, items: &[Item]) -> bool
    ensures { result ≡ are_plain text.now items.now }
{
    for item in items {
        if !is_plain_number(text, item.number) {
            return false;
        }
    }
    true
}

/// Returns the numbers that items state so.
///
/// # Errors
///
/// Where memory runs out.
pub fn stated_numbers(alloc: Global, text: &str, items: &[Item]) -> Result<Vec<i128>, AllocError>
    ensures { IfOk result (λ numbers. numbers.items ≡ stated_numbers text.now items.now) }
{
    let mut numbers = Vec::new(alloc);
    for item in items {
        if let Some(number) = item_number(text, *item) {
            numbers.push(number)?;
        }
    }
    Ok(numbers)
}
