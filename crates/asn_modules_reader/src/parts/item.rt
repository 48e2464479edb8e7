//! Reads the items of an ENUMERATED.
ghost use Rattle.asn_modules_grammar.specs.headers.Fronts.{Answers};
ghost use Rattle.asn_modules_grammar.specs.notation.Numbers.{ItemsParse, item_at, item_number_at};
ghost use Rattle.asn_modules_reader.specs.parts.EntryLists.{entries_of};
ghost use Rattle.asn_modules_reader.specs.parts.Reading.{Reads};
ghost use Rattle.std.specs.Prelude.{◌≡◌, ◌<◌, ◌≤◌, IfOk, length};

use crate::parts::entries::Entries;
use crate::parts::mark::{Mark, take};
use crate::parts::number::read_in_parens;
use crate::parts::sign::{Sign, take_sign};
use asn_lexer::{Kind, Token};
use asn_modules_grammar::headers::{Expected, SyntaxFault, unexpected};
use asn_modules_grammar::notation::Item;
use std::alloc::Global;

/// Returns the item of the name, with its number if that is stated, and what follows it.
///
/// # Errors
///
/// `Unexpected` where a parenthesis opens and no number stands in it.
fn read_item_number(name: Token, tokens: &[Token]) -> Result<(Option<Item>, &[Token]), SyntaxFault>
    ensures found { Answers (λ item. item) (item_number_at name tokens.now) result }
    ensures shorter { IfOk result (λ found. length found.1.now ≤ length tokens.now) }
{
    match take(Mark::OpenParen, tokens) {
        None => Ok((Some(Item { name, number: None }), tokens)),
        Some(_open) => {
            let (number, rest) = read_in_parens(tokens)?;
            let item = Item {
                name,
                number: Some(number),
            };
            Ok((Some(item), rest))
        }
    }
}

/// Returns an item of an ENUMERATED, or `None` for the extension marker, and what follows it.
///
/// # Errors
///
/// `Unexpected` where neither stands there.
pub fn read_item(tokens: &[Token]) -> Result<(Option<Item>, &[Token]), SyntaxFault>
    ensures found { Answers (λ item. item) (item_at tokens.now) result }
    ensures shorter { IfOk result (λ found. length found.1.now < length tokens.now) }
{
    let [first, rest @ ..] = tokens else {
        return Err(unexpected(tokens, Expected::Item));
    };
    match first.kind {
        Kind::Ellipsis => Ok((None, rest)),
        Kind::Name(_) | Kind::Reserved(_) => read_item_number(*first, rest),
        _ => Err(unexpected(tokens, Expected::Item)),
    }
}

/// Returns the items of an ENUMERATED after the opening brace, and what follows the closing one.
///
/// # Errors
///
/// `Unexpected` where they aren't in the grammar or the extension marker stands again, and
/// `OutOfMemory`.
pub fn read_items(alloc: Global, tokens: &[Token]) -> Result<(Entries<Item>, &[Token]), SyntaxFault>
    ensures found { Reads entries_of (ItemsParse tokens.now) result }
    ensures shorter { IfOk result (λ found. length found.1.now < length tokens.now) }
{
    let mut items = Entries::new(alloc);
    if let Some(after) = take_sign(Sign::CloseBrace, tokens) {
        return Ok((items, after));
    }
    let mut rest = tokens;
    'items: loop {
        let (item, behind) = read_item(rest)?;
        if !items.may_add(&item, 1) {
            return Err(unexpected(rest, Expected::Word));
        }
        items.add(alloc, item)?;
        if let Some(after) = take_sign(Sign::CloseBrace, behind) {
            return Ok((items, after));
        }
        let Some(next) = take_sign(Sign::Comma, behind) else {
            return Err(unexpected(behind, Expected::CommaOrBrace));
        };
        rest = next;
    }
}
