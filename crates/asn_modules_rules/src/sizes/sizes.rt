//! Takes the sizes of names, items and named numbers off so many bytes.
ghost use Rattle.asn_modules_grammar.specs.notation.View.{items_view};
ghost use Rattle.asn_modules_rules.specs.sizes.Sizes.{entry_size, items_size, name_size, numbers_size};
ghost use Rattle.asn_modules_rules.specs.sizes.Sizes.{past};
ghost use Rattle.std.specs.List.{sum_by};
ghost use Rattle.std.specs.Prelude.{◌≡◌};

use asn_lexer::Token;
use asn_modules_grammar::notation::{Item, NamedNumber};

/// Is what an item or a named number counts besides its name, in bytes.
pub const ENTRY_SIZE: usize = 64;

/// Returns how many of so many bytes are left after the name, or `None` where there aren't as
/// many. This and the others below count what stands in a text, and not where.
pub fn take_name(left: usize, name: Token) -> Option<usize>
    ensures { result ≡ past left (name_size name) }
{
    left.checked_sub(name.end.saturating_sub(name.start))
}

/// Returns how many are left after an item or a named number of the name.
fn take_entry(left: usize, name: Token) -> Option<usize>
    ensures { result ≡ past left (entry_size name) }
{
    take_name(left.checked_sub(ENTRY_SIZE)?, name)
}

/// Returns how many are left after named numbers.
pub fn take_numbers(left: usize, named: &[NamedNumber]) -> Option<usize>
    ensures { result ≡ past left (numbers_size named.now) }
{
    let mut rest = left;
    for entry in named {
        rest = take_entry(rest, entry.name)?;
    }
    Some(rest)
}

/// Returns how many are left after items without an extension marker among them.
fn take_list(left: usize, items: &[Item]) -> Option<usize>
    ensures { result ≡ past left (sum_by (λ i. entry_size i.name) items.now) }
{
    let mut rest = left;
    for item in items {
        rest = take_entry(rest, item.name)?;
    }
    Some(rest)
}

/// Returns how many are left after the items of an ENUMERATED, and `added` after its extension
/// marker, if there is one.
pub fn take_items(left: usize, items: &Vec<Item>, added: &Option<Vec<Item>>) -> Option<usize>
    ensures { result ≡ past left (items_size (items_view items.now added.now)) }
{
    let rest = take_list(left, items)?;
    match added {
        Some(added) => take_list(rest, added),
        None => Some(rest),
    }
}
