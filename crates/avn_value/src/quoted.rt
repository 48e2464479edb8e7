//! Reads the tokens between apostrophes: octets in hexadecimal, and bits.
ghost use Rattle.std.specs.Prelude.{◌≡◌, ◌≢◌, ◌<◌, ℕ, List, [], ◌∷◌};
ghost use Rattle.std.specs.Prelude.{length, Err, IfOk, OnOk, MatchOption};
ghost use Rattle.avn_grammar.specs.Tree.{Tree};
ghost use Rattle.avn_grammar.specs.Chars.{class_of_next};
ghost use Rattle.avn_grammar.specs.Grammar.{Token};
ghost use Rattle.avn_cursor.specs.Ahead.{Advances};
ghost use Rattle.avn_value.specs.Radix.{letter_of};
ghost use Rattle.avn_nodes.specs.NodeLists.{NodeList};
ghost use Rattle.avn_value.specs.ReadNodes.{IsRead};

use crate::fault::Fault;
use avn_cursor::{Cursor, HexDigits};
use avn_grammar::chars::CharClass;
use avn_nodes::{NodeKind, Nodes};
use std::alloc::Global;

/// What a text between apostrophes is, by the letter after it.
#[derive(Clone, Copy, Drop)]
pub enum Radix {
    /// Octets in hexadecimal, before `H`.
    Hexadecimal,
    /// Bits, before `B`.
    Binary,
}

/// Goes past an apostrophe and the letter after it, and returns what the letter says, or `None`
/// where these are not ahead.
fn closing(cursor: &mut Cursor<'_>) -> Option<Radix>
    requires together { cursor.old.ahead ≡ cursor.old.rest }
    ensures advances { Advances 2 cursor.old cursor.new }
    ensures together { cursor.new.ahead ≡ cursor.new.rest }
    ensures found { MatchOption result
        (((rest : List ℕ) → cursor.old.rest ≡ 39 ∷ 72 ∷ rest → ⊥)
        × ((rest : List ℕ) → cursor.old.rest ≡ 39 ∷ 66 ∷ rest → ⊥))
        (λ radix. cursor.old.rest ≡ 39 ∷ letter_of radix ∷ cursor.new.rest) }
{
    match cursor.take() {
        Some('\'') => match cursor.take() {
            Some('H') => Some(Radix::Hexadecimal),
            Some('B') => Some(Radix::Binary),
            _ => None,
        },
        _ => None,
    }
}

/// Reads octets in hexadecimal, or bits, whose first apostrophe is ahead, into a node. Returns that
/// it is no Integer.
///
/// # Errors
///
/// `UnexpectedToken` where no apostrophe and `H` or `B` follow, or other characters stand between
/// than these digits and white space; and `OutOfMemory`.
pub fn quoted(alloc: Global, nodes: &mut Nodes, cursor: &mut Cursor<'_>) -> Result<bool, Fault>
    requires together { cursor.old.ahead ≡ cursor.old.rest }
    requires apostrophe { class_of_next cursor.old.rest ≡ CharClass.Apostrophe }
    requires clear { nodes.old.word ≡ [] }
    ensures advances { Advances 2 cursor.old cursor.new }
    ensures together { cursor.new.ahead ≡ cursor.new.rest }
    ensures ok { IfOk result (IsRead
        (λ tree. Token cursor.old.rest tree cursor.new.rest) nodes.old nodes.new) }
    ensures shallow { result ≢ Err Fault.TooDeep }
    ensures none { result ≡ Err Fault.UnexpectedToken
        → (tree : Tree) (rest : List ℕ) → Token cursor.old.rest tree rest → ⊥ }
    ensures shorter { OnOk result (length cursor.new.rest < length cursor.old.rest) }
{
    let _open = cursor.take();
    let mut digits = HexDigits::new(alloc);
    if !digits.take(cursor)? {
        return Err(Fault::UnexpectedToken);
    }
    let Some(radix) = closing(cursor) else {
        return Err(Fault::UnexpectedToken);
    };
    match radix {
        Radix::Hexadecimal => {
            let Some(octets) = digits.octets() else {
                return Err(Fault::UnexpectedToken);
            };
            nodes.octets_leaf(NodeKind::OctetString, octets, 0)?;
            Ok(false)
        }
        Radix::Binary => {
            let length = digits.len();
            let Some(octets) = digits.bits(alloc)? else {
                return Err(Fault::UnexpectedToken);
            };
            nodes.octets_leaf(NodeKind::BitString, &octets, length)?;
            Ok(false)
        }
    }
}
