//! A reader of values into nodes, by descent.
ghost use Rattle.std.specs.Prelude.{List, [], ℕ, true, false, ◌≡◌, ◌+◌, ◌*◌, ◌≤◌, ◌<◌, length, Err};
ghost use Rattle.std.specs.Prelude.{IfOk, IfErr, OnOk, string_bytes};
ghost use Rattle.std.specs.Char.{is_whitespace};
ghost use Rattle.asn_fault.specs.Failure.{failure_of};
ghost use Rattle.avn_grammar.specs.Chars.{skip_while, utf8_of};
ghost use Rattle.avn_grammar.specs.Depth.{ExceedsDepth, ItemExceedsDepth, ItemsExceedDepth};
ghost use Rattle.avn_grammar.specs.Grammar.{Item, Parses, ItemParses, BracesParse, ParsesWhole};
ghost use Rattle.avn_grammar.specs.Tree.{Tree};
ghost use Rattle.avn_grammar.specs.ParseFailure.{Found};
ghost use Rattle.avn_cursor.specs.Ahead.{Advances, LooksAtMost};
ghost use Rattle.avn_value.specs.Answer.{Explains, IsMoreOrMemory, IsFoundOrMemory};
ghost use Rattle.avn_nodes.specs.NodeLists.{NodeList, extended};
ghost use Rattle.avn_nodes.specs.Preorder.{preorder};
ghost use Rattle.avn_value.specs.ReadNodes.{IsRead, IsItemRead};
ghost use Rattle.std.specs.Str.{chars};

use crate::brace_items::{BraceItems, ItemKind};
use crate::fault::Fault;
use crate::quoted::quoted;
use crate::token::{identifier, number, text};
use asn_core::{Codec, OutOfMemory};
use asn_fault::{AvnDecodeErrorKind, DecodeError, DecodeErrorKind};
use avn_cursor::Cursor;
use avn_grammar::chars::CharClass;
use avn_grammar::limits::EXCERPT_LENGTH;
use avn_nodes::{NodeKind, Nodes};
use std::alloc::Global;

/// Reads a value that is looked for at the level into nodes. Returns whether it is an Integer.
///
/// # Errors
///
/// `TooDeep` where a level above the limit is looked for before any other fault,
/// `UnexpectedToken` where no value is ahead, and `OutOfMemory`.
#[cycle(read)]
fn read_value(
    alloc: Global,
    nodes: &mut Nodes,
    cursor: &mut Cursor<'_>,
    limit: usize,
    level: usize,
) -> Result<bool, Fault>
    requires bounded { limit < usize.MAX }
    requires clear { nodes.old.word ≡ [] }
    ensures advances { Advances 2 cursor.old cursor.new }
    ensures ok { IfOk result (IsRead
        (λ tree. Parses limit level cursor.old.rest tree cursor.new.rest) nodes.old nodes.new) }
    ensures deep { result ≡ Err Fault.TooDeep → ExceedsDepth limit level cursor.old.rest }
    ensures token { result ≡ Err Fault.UnexpectedToken
        → ExceedsDepth limit level cursor.old.rest → ⊥ }
    ensures none { result ≡ Err Fault.UnexpectedToken
        → (tree : Tree) (rest : List ℕ)
        → Parses limit level cursor.old.rest tree rest → ⊥ }
    ensures shorter { OnOk result (length cursor.new.rest < length cursor.old.rest) }
{
    if level > limit {
        return Err(Fault::TooDeep);
    }
    cursor.skip();
    match cursor.class_of_next() {
        CharClass::Letter => {
            identifier(nodes, cursor)?;
            match cursor.class_after_blanks() {
                CharClass::Colon => {
                    cursor.skip();
                    let _colon = cursor.take();
                    let place = nodes.len();
                    nodes.open(NodeKind::Choice)?;
                    let _integer = read_value(alloc, nodes, cursor, limit, level + 1)?;
                    nodes.close(place, NodeKind::Choice);
                    Ok(false)
                }
                _ => {
                    nodes.word_leaf()?;
                    Ok(false)
                }
            }
        }
        CharClass::OpenBrace => {
            let _open = cursor.take();
            match cursor.class_after_blanks() {
                CharClass::CloseBrace => {
                    cursor.skip();
                    let _close = cursor.take();
                    nodes.leaf(NodeKind::SequenceOf)?;
                    Ok(false)
                }
                _ => {
                    read_items(alloc, nodes, cursor, limit, level + 1)?;
                    Ok(false)
                }
            }
        }
        CharClass::Digit | CharClass::Minus => number(nodes, cursor),
        CharClass::Quote => text(nodes, cursor),
        CharClass::Apostrophe => quoted(alloc, nodes, cursor),
        _ => Err(Fault::UnexpectedToken),
    }
}

/// Reads an item of braces, whose values are looked for at the level, into nodes.
///
/// # Errors
///
/// As `read_value` has them.
#[cycle(read)]
fn read_item(
    alloc: Global,
    nodes: &mut Nodes,
    cursor: &mut Cursor<'_>,
    limit: usize,
    level: usize,
) -> Result<ItemKind, Fault>
    requires bounded { limit < usize.MAX }
    requires nameless { nodes.old.name ≡ [] }
    requires clear { nodes.old.word ≡ [] }
    ensures advances { Advances 2 cursor.old cursor.new }
    ensures ok { IfOk result (IsItemRead
        (λ item. ItemParses limit level cursor.old.rest item cursor.new.rest)
        nodes.old nodes.new) }
    ensures deep { result ≡ Err Fault.TooDeep → ItemExceedsDepth limit level cursor.old.rest }
    ensures token { result ≡ Err Fault.UnexpectedToken
        → ItemExceedsDepth limit level cursor.old.rest → ⊥ }
    ensures none { result ≡ Err Fault.UnexpectedToken
        → (item : Item) (rest : List ℕ)
        → ItemParses limit level cursor.old.rest item rest → ⊥ }
    ensures shorter { OnOk result (length cursor.new.rest < length cursor.old.rest) }
{
    cursor.skip();
    match cursor.class_of_next() {
        CharClass::Letter => {}
        _ => {
            let integer = read_value(alloc, nodes, cursor, limit, level)?;
            return Ok(ItemKind::of(integer));
        }
    }
    identifier(nodes, cursor)?;
    match cursor.class_after_blanks() {
        CharClass::Colon => {
            cursor.skip();
            let _colon = cursor.take();
            let place = nodes.len();
            nodes.open(NodeKind::Choice)?;
            let _integer = read_value(alloc, nodes, cursor, limit, level)?;
            nodes.close(place, NodeKind::Choice);
            Ok(ItemKind::Value)
        }
        CharClass::Comma | CharClass::CloseBrace => {
            nodes.word_leaf()?;
            Ok(ItemKind::Value)
        }
        _ => {
            nodes.name_next();
            let _integer = read_value(alloc, nodes, cursor, limit, level)?;
            Ok(ItemKind::Named)
        }
    }
}

/// Reads the items of braces, to the closing one, into nodes under a node of the braces.
///
/// # Errors
///
/// As `read_value` has them. `UnexpectedToken` comes also where a comma is missing other than
/// between Integers, and where items with a name and without are mixed.
#[cycle(read)]
fn read_items(
    alloc: Global,
    nodes: &mut Nodes,
    cursor: &mut Cursor<'_>,
    limit: usize,
    level: usize,
) -> Result<(), Fault>
    requires bounded { limit < usize.MAX }
    requires clear { nodes.old.word ≡ [] }
    ensures advances { Advances 2 cursor.old cursor.new }
    ensures ok { OnOk result (IsRead
        (λ tree. BracesParse limit level cursor.old.rest tree cursor.new.rest)
        nodes.old nodes.new false) }
    ensures deep { result ≡ Err Fault.TooDeep → ItemsExceedDepth limit level [] cursor.old.rest }
    ensures token { result ≡ Err Fault.UnexpectedToken
        → ItemsExceedDepth limit level [] cursor.old.rest → ⊥ }
    ensures none { result ≡ Err Fault.UnexpectedToken
        → (tree : Tree) (rest : List ℕ)
        → BracesParse limit level cursor.old.rest tree rest → ⊥ }
    ensures shorter { OnOk result (length cursor.new.rest < length cursor.old.rest) }
{
    let place = nodes.len();
    nodes.open(NodeKind::SequenceOf)?;
    let mut gathered = BraceItems::new();
    'items: loop {
        let entry = read_item(alloc, nodes, cursor, limit, level)?;
        gathered.add(entry);
        cursor.skip();
        match cursor.class_of_next() {
            CharClass::Comma => {
                let _comma = cursor.take();
            }
            CharClass::CloseBrace => {
                let _close = cursor.take();
                match gathered.kind() {
                    Some(kind) => {
                        nodes.close(place, kind);
                        return Ok(());
                    }
                    None => return Err(Fault::UnexpectedToken),
                }
            }
            CharClass::Digit | CharClass::Minus => {
                if !gathered.integers {
                    return Err(Fault::UnexpectedToken);
                }
            }
            _ => return Err(Fault::UnexpectedToken),
        }
    }
}

/// Returns what is not read: the first characters ahead, past white space and each identifier with
/// a colon.
fn found(alloc: Global, cursor: &mut Cursor<'_>) -> Result<String, OutOfMemory>
    requires { cursor.old.ahead ≡ cursor.old.rest }
    ensures looks { LooksAtMost (2 * length cursor.old.ahead + 1) cursor.old cursor.new }
    ensures found { IfOk result (λ s. (excerpt : List ℕ)
        × Found cursor.old.rest excerpt × (string_bytes s ≡ utf8_of excerpt)) }
{
    loop {
        cursor.skip();
        if !cursor.take_choice() {
            return cursor.excerpt(alloc, EXCERPT_LENGTH);
        }
    }
}

/// Checks that no more than white space follows.
///
/// # Errors
///
/// `UnexpectedToken` with all that follows where it is more, and `OutOfMemory`.
fn end_of_text(alloc: Global, cursor: &mut Cursor<'_>) -> Result<(), DecodeError>
    ensures looks { LooksAtMost (2 * length cursor.old.rest + 2) cursor.old cursor.new }
    ensures ok { OnOk result (skip_while is_whitespace cursor.old.rest ≡ []) }
    ensures err { IfErr result (λ e. IsMoreOrMemory cursor.old.rest (failure_of e)) }
{
    let Ok(found) = cursor.other_than_white(alloc) else {
        return Err(DecodeError::out_of_memory(Codec::Avn));
    };
    match found {
        Some(found) => Err(AvnDecodeErrorKind::UnexpectedToken { found }.into()),
        None => Ok(()),
    }
}

/// Returns the error of a text that is no value: what was found in place of one.
fn no_value(alloc: Global, cursor: &mut Cursor<'_>) -> DecodeError
    ensures looks { LooksAtMost (2 * length (chars cursor.old.text) + 2) cursor.old cursor.new }
    ensures error { IsFoundOrMemory (chars cursor.old.text) (failure_of result) }
{
    cursor.restart();
    match found(alloc, cursor) {
        Ok(found) => AvnDecodeErrorKind::UnexpectedToken { found }.into(),
        Err(_) => DecodeError::out_of_memory(Codec::Avn),
    }
}

/// Reads the value that the whole text is into nodes, within the limit on levels.
///
/// # Errors
///
/// As `parse_scan_within` has them.
pub fn read_whole(
    alloc: Global,
    nodes: &mut Nodes,
    cursor: &mut Cursor<'_>,
    limit: usize,
) -> Result<(), DecodeError>
    requires bounded { limit < usize.MAX }
    requires clear { nodes.old.word ≡ [] }
    requires together { cursor.old.ahead ≡ cursor.old.rest }
    requires whole { cursor.old.rest ≡ chars cursor.old.text }
    ensures looks { LooksAtMost (4 * length cursor.old.rest + 2) cursor.old cursor.new }
    ensures ok { OnOk result ((tree : Tree) × ParsesWhole limit cursor.old.rest tree
        × (nodes.new ≡ extended nodes.old (preorder nodes.old.name tree))) }
    ensures err { IfErr result (λ e. Explains limit cursor.old.rest (failure_of e)) }
{
    match read_value(alloc, nodes, cursor, limit, 0) {
        Ok(_integer) => end_of_text(alloc, cursor),
        Err(Fault::UnexpectedToken) => Err(no_value(alloc, cursor)),
        Err(Fault::TooDeep) => {
            Err(DecodeError::from_kind(DecodeErrorKind::ExceedsMaxParseDepth, Codec::Avn))
        }
        Err(Fault::OutOfMemory) => Err(DecodeError::out_of_memory(Codec::Avn)),
    }
}
