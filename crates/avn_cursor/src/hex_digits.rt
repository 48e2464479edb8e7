//! Hexadecimal digits, read up to an apostrophe.
ghost use Rattle.std.specs.Prelude.{◌≡◌, ◌≤◌, ◌<◌, ◌++◌, ◌∷◌, ℕ, List, [], true, false, Ok, map};
ghost use Rattle.std.specs.Prelude.{IfOk, OnOk, IfSome, MatchOption, length, take};
ghost use Rattle.avn_grammar.specs.Chars.{all, skip_while, is_not_apostrophe, without_whitespace};
ghost use Rattle.avn_grammar.specs.Octets.{is_hex, hex_value, packed};
ghost use Rattle.avn_cursor.specs.Ahead.{Advances};
ghost use Rattle.avn_cursor.specs.HexDigits.{digit_values, odd_value, binary_digits, is_bit_value};
ghost use Rattle.avn_cursor.specs.HexDigits.{inside, TakesDigits};

use crate::bit_pairs::octets_of_pairs;
use crate::chars::CharSet;
use crate::cursor::Cursor;
use std::alloc::{AllocError, Global};
use std::marker::Model;

/// The most octets whose digits are taken together.
const CHUNK: usize = 256;

/// Returns the number that a hexadecimal digit of either case stands for, or `None` where the
/// character is none.
#[inline(always)]
fn hex_value(c: char) -> Option<u8>
    ensures { MatchOption result (is_hex c ≡ false)
        (λ v. (is_hex c ≡ true) × (v ≡ hex_value c) × (v < 16)) }
{
    match c {
        '0'..='9' => Some(c as u8 - b'0'),
        'A'..='F' => Some(c as u8 - b'A' + 10),
        'a'..='f' => Some(c as u8 - b'a' + 10),
        _ => None,
    }
}

/// Takes the digit ahead, if one is.
#[inline(always)]
fn take_digit(cursor: &mut Cursor<'_>) -> Option<u8>
    requires { cursor.old.ahead ≡ cursor.old.rest }
    ensures advances { Advances 1 cursor.old cursor.new }
    ensures together { cursor.new.ahead ≡ cursor.new.rest }
    ensures found { MatchOption result (cursor.new.rest ≡ cursor.old.rest)
        (λ v. (v < 16) × TakesDigits [] cursor.old.rest (v ∷ []) cursor.new.rest) }
{
    let c = cursor.peek()?;
    let value = hex_value(c)?;
    let _c = cursor.take();
    Some(value)
}

/// Digits that were taken together: how many octets they are, and the value of one more.
#[derive(Clone, Copy, Drop)]
struct Pairs {
    /// Is how many octets of the chunk hold two digits.
    length: usize,
    /// Is the digit that has no second one yet.
    odd: Option<u8>,
}

/// Takes the digits ahead to the beginning of `room`, two for each octet, as many as there is room
/// for. The cursor is moved in and out, so that its parts are kept in registers.
#[inline(always)]
fn after_pairs<'a>(cursor: Cursor<'a>, room: &mut [u8; CHUNK]) -> (Cursor<'a>, Pairs)
    requires { cursor.ahead ≡ cursor.rest }
    ensures advances { Advances 1 cursor.entry result.0 }
    ensures together { result.0.ahead ≡ result.0.rest }
    ensures within { result.1.length ≤ CHUNK }
    ensures below { IfSome result.1.odd (λ v. v < 16) }
    ensures taken { TakesDigits [] cursor.entry.rest
        (digit_values (take result.1.length room.new) ++ odd_value result.1.odd) result.0.rest }
{
    let mut here = cursor;
    let mut length = 0;
    while length < CHUNK {
        let Some(high) = take_digit(&mut here) else {
            return (here, Pairs { length, odd: None });
        };
        let Some(low) = take_digit(&mut here) else {
            let odd = Some(high);
            return (here, Pairs { length, odd });
        };
        room[length] = 16 * high + low;
        length += 1;
    }
    (here, Pairs { length, odd: None })
}

/// Takes the digits ahead to the beginning of `room`, as `after_pairs` does. It stands apart, so
/// that its loop has the registers for itself.
#[inline(never)]
fn take_pairs(cursor: &mut Cursor<'_>, room: &mut [u8; CHUNK]) -> Pairs
    requires { cursor.old.ahead ≡ cursor.old.rest }
    ensures advances { Advances 1 cursor.old cursor.new }
    ensures together { cursor.new.ahead ≡ cursor.new.rest }
    ensures within { result.length ≤ CHUNK }
    ensures below { IfSome result.odd (λ v. v < 16) }
    ensures taken { TakesDigits [] cursor.old.rest
        (digit_values (take result.length room.new) ++ odd_value result.odd) cursor.new.rest }
{
    let (here, pairs) = after_pairs(cursor.take_out(), room);
    *cursor = here;
    pairs
}

/// Hexadecimal digits that were read, which contracts see as their values.
#[derive(Drop)]
pub struct HexDigits {
    /// The octets that two digits each are.
    octets: Vec<u8>,
    /// The value of the last digit, if it is the first of an octet.
    odd: Option<u8>,
}

impl Model for HexDigits {
    ghost use Rattle.std.specs.Prelude.{ℕ, List, ◌++◌, ◌<◌, IfSome};
    ghost use Rattle.std.specs.Coded.{coded_list, coded_ℕ};
    ghost use Rattle.avn_cursor.specs.HexDigits.{digit_values, odd_value};

    ghost Value = { List ℕ };

    ghost coded = { coded_list coded_ℕ };

    ghost view = { λ s. digit_values s.octets.items ++ odd_value s.odd };

    ghost invariant = { λ s. IfSome s.odd (λ v. v < 16) };
}

impl HexDigits {
    /// Returns no digits.
    pub fn new(alloc: Global) -> HexDigits
        ensures { result ≡ [] }
    {
        HexDigits {
            octets: Vec::new(alloc),
            odd: None,
        }
    }

    /// Adds a digit of the value.
    fn add(&mut self, value: u8) -> Result<(), AllocError>
        requires { value < 16 }
        ensures { OnOk result (self.new ≡ self.old ++ value ∷ []) }
    {
        match self.odd {
            Some(high) => {
                self.octets.push(16 * high + value)?;
                self.odd = None;
            }
            None => self.odd = Some(value),
        }
        Ok(())
    }

    /// Adds a character, if it is a digit. Returns whether it is one or else white space.
    fn add_char(&mut self, c: char) -> Result<bool, AllocError>
        ensures valid { IfOk result (λ valid. valid ≡ all is_hex (without_whitespace (c ∷ []))) }
        ensures added { result ≡ Ok true
            → self.new ≡ self.old ++ map hex_value (without_whitespace (c ∷ [])) }
    {
        match hex_value(c) {
            Some(value) => {
                self.add(value)?;
                Ok(true)
            }
            None => Ok(c.is_whitespace()),
        }
    }

    /// Takes digits ahead, unless the next one is the second of an octet.
    fn take_pairs(&mut self, cursor: &mut Cursor<'_>) -> Result<(), AllocError>
        requires { cursor.old.ahead ≡ cursor.old.rest }
        ensures advances { Advances 1 cursor.old cursor.new }
        ensures together { cursor.new.ahead ≡ cursor.new.rest }
        ensures taken { OnOk result
            (TakesDigits self.old cursor.old.rest self.new cursor.new.rest) }
    {
        if self.odd.is_some() {
            return Ok(());
        }
        let mut room = [0; CHUNK];
        let pairs = take_pairs(cursor, &mut room);
        self.octets.extend_from_slice(&room[..pairs.length])?;
        self.odd = pairs.odd;
        Ok(())
    }

    /// Takes the digits ahead up to an apostrophe or the end, and the white space between. Returns
    /// whether no other character stands between.
    pub fn take(&mut self, cursor: &mut Cursor<'_>) -> Result<bool, AllocError>
        requires { cursor.old.ahead ≡ cursor.old.rest }
        ensures advances { Advances 1 cursor.old cursor.new }
        ensures together { cursor.new.ahead ≡ cursor.new.rest }
        ensures valid { IfOk result (λ valid. valid ≡ all is_hex (inside cursor.old.rest)) }
        ensures moves { result ≡ Ok true
            → cursor.new.rest ≡ skip_while is_not_apostrophe cursor.old.rest }
        ensures taken { result ≡ Ok true
            → self.new ≡ self.old ++ map hex_value (inside cursor.old.rest) }
    {
        'digits: loop {
            self.take_pairs(cursor)?;
            let Some(c) = cursor.peek_if(CharSet::Inside) else {
                return Ok(true);
            };
            if !self.add_char(c)? {
                return Ok(false);
            }
            let _c = cursor.take();
        }
    }

    /// Returns the octets that the digits are, if the last one has two digits.
    pub fn octets(&self) -> Option<&[u8]>
        ensures { MatchOption result ((octets : List ℕ) → self.now ≡ digit_values octets → ⊥)
            (λ octets. self.now ≡ digit_values octets.now) }
    {
        match self.odd {
            Some(_) => None,
            None => Some(self.octets.as_slice()),
        }
    }

    /// Returns the octets of the digits as bits, the last padded with zeros, if all are binary.
    pub fn bits(&mut self, alloc: Global) -> Result<Option<Vec<u8>>, AllocError>
        ensures { IfOk result (λ found. MatchOption found (all is_bit_value self.old ≡ false)
            (λ octets. (all is_bit_value self.old ≡ true)
            × (octets.items ≡ packed (binary_digits self.old)))) }
    {
        if let Some(high) = self.odd {
            self.octets.push(16 * high)?;
            self.odd = None;
        }
        octets_of_pairs(alloc, &self.octets)
    }

    /// Returns the number of digits.
    pub fn len(&self) -> usize
        ensures { result ≡ length self.now }
    {
        2 * self.octets.len() + usize::from(self.odd.is_some())
    }
}
