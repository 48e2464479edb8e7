//! Finds numbers that break a rule.
ghost use Rattle.asn_modules_rules.specs.numbers.Faults.{first_falling, first_negative, first_repeated};
ghost use Rattle.std.specs.Prelude.{◌≡◌, IfOk, []};

use crate::numbers::numbered::Numbered;
use asn_lexer::Token;
use std::alloc::{AllocError, Global};
use std::collections::HashSet;

/// Returns the first name of a negative number.
pub fn first_negative(numbered: &[Numbered]) -> Option<Token>
    ensures { result ≡ first_negative numbered.now }
{
    for entry in numbered {
        if entry.number < 0 {
            return Some(entry.name);
        }
    }
    None
}

/// Returns the first name whose number is that of one before it.
///
/// # Errors
///
/// Where memory runs out.
pub fn first_repeated(alloc: Global, numbered: &[Numbered]) -> Result<Option<Token>, AllocError>
    ensures { IfOk result (λ found. found ≡ first_repeated [] numbered.now) }
{
    let mut seen = HashSet::new(alloc);
    for entry in numbered {
        let is_new = seen.insert(entry.number)?;
        if !is_new {
            return Ok(Some(entry.name));
        }
    }
    Ok(None)
}

/// Returns the first name whose number is below that of the one before it.
pub fn first_falling(numbered: &[Numbered]) -> Option<Token>
    ensures { result ≡ first_falling numbered.now }
{
    let mut last = match numbered.first() {
        Some(first) => first.number,
        None => return None,
    };
    for entry in numbered {
        if entry.number < last {
            return Some(entry.name);
        }
        last = entry.number;
    }
    None
}
