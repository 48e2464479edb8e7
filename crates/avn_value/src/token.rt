//! The tokens of the notation, other than those between apostrophes, read into nodes.
ghost use Rattle.std.specs.Prelude.{◌≡◌, ◌≢◌, ◌⊎◌, ◌<◌, ℕ, List, [], length, Err, IfOk, OnOk};
ghost use Rattle.avn_grammar.specs.Tree.{Tree};
ghost use Rattle.avn_grammar.specs.Chars.{class_of_next, utf8_of};
ghost use Rattle.avn_grammar.specs.Grammar.{number_tree, past_number, Token, Ident, is_integer};
ghost use Rattle.avn_cursor.specs.Ahead.{Advances};
ghost use Rattle.avn_nodes.specs.NodeLists.{NodeList, extended};
ghost use Rattle.avn_nodes.specs.Preorder.{preorder};
ghost use Rattle.avn_value.specs.ReadNodes.{IsRead};

use crate::fault::Fault;
use avn_cursor::{CharSet, Cursor};
use avn_grammar::chars::CharClass;
use avn_nodes::{NodeKind, Nodes};
use std::alloc::AllocError;

/// Reads an identifier, whose first letter is ahead, as the pending word.
///
/// # Errors
///
/// `AllocError` where memory is refused.
#[inline(always)]
pub fn identifier(nodes: &mut Nodes, cursor: &mut Cursor<'_>) -> Result<(), AllocError>
    requires together { cursor.old.ahead ≡ cursor.old.rest }
    requires letter { class_of_next cursor.old.rest ≡ CharClass.Letter }
    requires clear { nodes.old.word ≡ [] }
    ensures advances { Advances 1 cursor.old cursor.new }
    ensures together { cursor.new.ahead ≡ cursor.new.rest }
    ensures ok { OnOk result ((id : List ℕ) × Ident cursor.old.rest id cursor.new.rest
        × (nodes.new ≡ record nodes.old { word = utf8_of id })) }
{
    nodes.take_run(cursor, CharSet::Name)
}

/// Reads a number after its sign, which is the pending word. Returns whether it is an Integer.
///
/// # Errors
///
/// `UnexpectedToken` where no digit is ahead, and `OutOfMemory`.
#[inline(always)]
fn unsigned(nodes: &mut Nodes, cursor: &mut Cursor<'_>) -> Result<bool, Fault>
    requires together { cursor.old.ahead ≡ cursor.old.rest }
    ensures advances { Advances 2 cursor.old cursor.new }
    ensures together { cursor.new.ahead ≡ cursor.new.rest }
    ensures digit { OnOk result (class_of_next cursor.old.rest ≡ CharClass.Digit) }
    ensures moves { OnOk result (cursor.new.rest ≡ past_number cursor.old.rest) }
    ensures integer { IfOk result (λ integer.
        integer ≡ is_integer (number_tree nodes.old.word cursor.old.rest)) }
    ensures tree { OnOk result (nodes.new ≡ extended nodes.old
        (preorder nodes.old.name (number_tree nodes.old.word cursor.old.rest))) }
    ensures shallow { result ≢ Err Fault.TooDeep }
    ensures none { result ≡ Err Fault.UnexpectedToken → class_of_next cursor.old.rest ≢
        CharClass.Digit }
{
    if cursor.class_of_next() != CharClass::Digit {
        return Err(Fault::UnexpectedToken);
    }
    nodes.take_run(cursor, CharSet::Digits)?;
    if !cursor.has_fraction() {
        nodes.leaf(NodeKind::Integer)?;
        return Ok(true);
    }
    let _point = cursor.take();
    nodes.push_char('.')?;
    nodes.take_run(cursor, CharSet::Digits)?;
    nodes.leaf(NodeKind::Real)?;
    Ok(false)
}

/// Reads a number, whose sign or first digit is ahead. Returns whether it is an Integer.
///
/// # Errors
///
/// `UnexpectedToken` where no digit follows a sign, and `OutOfMemory`.
#[inline(always)]
pub fn number(nodes: &mut Nodes, cursor: &mut Cursor<'_>) -> Result<bool, Fault>
    requires together { cursor.old.ahead ≡ cursor.old.rest }
    requires begins { (class_of_next cursor.old.rest ≡ CharClass.Digit)
        ⊎ (class_of_next cursor.old.rest ≡ CharClass.Minus) }
    requires clear { nodes.old.word ≡ [] }
    ensures advances { Advances 2 cursor.old cursor.new }
    ensures together { cursor.new.ahead ≡ cursor.new.rest }
    ensures ok { IfOk result (IsRead
        (λ tree. Token cursor.old.rest tree cursor.new.rest) nodes.old nodes.new) }
    ensures shallow { result ≢ Err Fault.TooDeep }
    ensures none { result ≡ Err Fault.UnexpectedToken
        → (tree : Tree) (rest : List ℕ) → Token cursor.old.rest tree rest → ⊥ }
    ensures shorter { OnOk result (length cursor.new.rest < length cursor.old.rest) }
{
    match cursor.class_of_next() {
        CharClass::Minus => {
            let _minus = cursor.take();
            nodes.push_char('-')?;
            unsigned(nodes, cursor)
        }
        _ => unsigned(nodes, cursor),
    }
}

/// Reads a text in quotes, whose first quote is ahead. Returns that it is no Integer.
///
/// # Errors
///
/// `UnexpectedToken` where no quote ends it, and `OutOfMemory`.
#[inline(always)]
pub fn text(nodes: &mut Nodes, cursor: &mut Cursor<'_>) -> Result<bool, Fault>
    requires together { cursor.old.ahead ≡ cursor.old.rest }
    requires quote { class_of_next cursor.old.rest ≡ CharClass.Quote }
    requires clear { nodes.old.word ≡ [] }
    ensures advances { Advances 2 cursor.old cursor.new }
    ensures together { cursor.new.ahead ≡ cursor.new.rest }
    ensures ok { IfOk result (IsRead
        (λ tree. Token cursor.old.rest tree cursor.new.rest) nodes.old nodes.new) }
    ensures shallow { result ≢ Err Fault.TooDeep }
    ensures none { result ≡ Err Fault.UnexpectedToken
        → (tree : Tree) (rest : List ℕ) → Token cursor.old.rest tree rest → ⊥ }
    ensures shorter { OnOk result (length cursor.new.rest < length cursor.old.rest) }
{
    let _open = cursor.take();
    'runs: loop {
        nodes.push_text(cursor.take_up_to_quote())?;
        let Some(quote) = cursor.take() else {
            return Err(Fault::UnexpectedToken);
        };
        let Some(_doubled) = cursor.take_if(CharSet::Quotes) else {
            nodes.leaf(NodeKind::CharString)?;
            return Ok(false);
        };
        nodes.push_char(quote)?;
    }
}
