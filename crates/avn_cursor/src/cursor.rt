//! Defines a place in a scan, with the character there.
ghost use Rattle.std.specs.Prelude.{◌≡◌, ◌≢◌, ◌⊎◌, ◌+◌, ◌≤◌, ◌∷◌, [], true, false, All, length};
ghost use Rattle.std.specs.Prelude.{MatchOption};
ghost use Rattle.std.specs.Prelude.{OnOk, string_bytes, ◌++◌, ◌*◌, ◌<◌, IfOk, take};
ghost use Rattle.std.specs.Str.{encode_utf8_all, chars, IsCharBoundary};
ghost use Rattle.std.specs.Char.{len_utf8, is_whitespace};
ghost use Rattle.asn_core.specs.Seen.{after};
ghost use Rattle.avn_grammar.specs.Chars.{class_of_next, tail, skip, starts_with, take_while};
ghost use Rattle.avn_grammar.specs.Chars.{skip_while, has_fraction, is_name};
ghost use Rattle.avn_cursor.specs.Ahead.{Advances, LooksAtMost, BeginsChoice};
ghost use Rattle.avn_cursor.specs.Runs.{passes};

use crate::chars::{CharSet, passes};
use asn_core::{OutOfMemory, Scan};
use avn_grammar::chars::{CharClass, class_of_char};
use std::alloc::{AllocError, Global};
use std::marker::Model;
use std::mem;

/// Returns how many octets a character takes.
#[inline(always)]
fn width(c: char) -> usize
    ensures { result ≡ len_utf8 c }
{
    if c.is_ascii() {
        return 1;
    }
    wide_width(c)
}

/// Returns how many octets any character takes. It stands apart, so that a branch and no arithmetic
/// leads to the next place.
#[cold]
#[inline(never)]
fn wide_width(c: char) -> usize
    ensures { result ≡ len_utf8 c }
{
    c.len_utf8()
}

/// A scan that is read from a mark on. It keeps the character at its place, which is the mark or
/// past the blanks there, so that a character is looked at again only after a point.
#[derive(Drop)]
pub struct Cursor<'a> {
    /// Shows the text.
    scan: Scan<'a>,
    /// Is the character at the place.
    kept: Option<char>,
    /// Is where the rest begins.
    mark: usize,
    /// Is the mark, or lies past the blanks there.
    place: usize,
}

impl<'a> Model for Cursor<'a> {
    ghost use Rattle.std.specs.Prelude.{◌≡◌, ◌<◌, ◌+◌, ◌^◌, ◌∷◌, [], MatchOption, length};
    ghost use Rattle.std.specs.Char.{len_utf8};
    ghost use Rattle.std.specs.Str.{IsCharBoundary};
    ghost use Rattle.avn_cursor.specs.Ahead.{Ahead, ahead_code};
    ghost use Rattle.avn_grammar.specs.Chars.{skip};
    ghost use Rattle.asn_core.specs.Seen.{after};

    ghost Value = { Ahead };

    ghost coded = { ahead_code };

    ghost view = { λ s. record {
      text = s.scan.text;
      rest = after s.scan.text s.mark;
      ahead = after s.scan.text s.place;
      looks = s.scan.looks;
    } };

    ghost invariant = { λ s. IsCharBoundary s.scan.text s.mark
        × IsCharBoundary s.scan.text s.place
        × (length s.scan.text < 2 ^ 64)
        × MatchOption s.kept (after s.scan.text s.place ≡ [])
        (λ c. IsCharBoundary s.scan.text (s.place + len_utf8 c)
        × (after s.scan.text s.place ≡ c ∷ after s.scan.text (s.place + len_utf8 c)))
        × (skip (after s.scan.text s.mark) ≡ skip (after s.scan.text s.place)) };
}

impl<'a> Cursor<'a> {
    /// Returns a cursor at the text's beginning.
    pub fn new(scan: Scan<'a>) -> Cursor<'a>
        ensures text { result.text ≡ scan.entry.text }
        ensures rest { result.rest ≡ chars scan.entry.text }
        ensures together { result.ahead ≡ result.rest }
        ensures looks { result.looks ≤ scan.entry.looks + 1 }
        ensures rises { scan.entry.looks ≤ result.looks }
    {
        scan.has_edge_at_start();
        let mut scan = scan;
        let kept = scan.look(0);
        Cursor {
            scan,
            kept,
            mark: 0,
            place: 0,
        }
    }

    /// Returns a cursor at the end of an empty text.
    #[inline(always)]
    fn empty() -> Cursor<'a>
        ensures text { result.text ≡ [] }
        ensures rest { result.rest ≡ [] }
        ensures together { result.ahead ≡ result.rest }
    {
        let scan = Scan::new("");
        scan.has_edge_at_start();
        Cursor {
            scan,
            kept: None,
            mark: 0,
            place: 0,
        }
    }

    /// Returns the cursor itself, and leaves one of an empty text. A loop over a cursor that it
    /// owns keeps the cursor's parts in registers.
    #[inline(always)]
    pub fn take_out(&mut self) -> Cursor<'a>
        ensures { result ≡ self.old }
    {
        mem::replace(self, Cursor::empty())
    }

    /// Returns the scan, with its count.
    pub fn into_scan(self) -> Scan<'a>
        ensures text { result.text ≡ self.entry.text }
        ensures looks { result.looks ≡ self.entry.looks }
    {
        self.scan
    }

    /// Returns the character ahead and goes past it, or returns `None` at the end.
    #[inline(always)]
    pub fn take(&mut self) -> Option<char>
        requires { self.old.ahead ≡ self.old.rest }
        ensures advances { Advances 1 self.old self.new }
        ensures together { self.new.ahead ≡ self.new.rest }
        ensures moves { self.new.rest ≡ tail self.old.rest }
        ensures found { MatchOption result (self.old.rest ≡ [])
            (λ c. self.old.rest ≡ c ∷ self.new.rest) }
    {
        let found = self.kept;
        if let Some(c) = found {
            let place = self.place + width(c);
            self.mark = place;
            self.place = place;
            self.kept = self.scan.look(place);
        }
        found
    }

    /// Returns the character ahead and goes past it where it belongs to the run, or else returns
    /// `None` and stays.
    #[inline(always)]
    pub fn take_if(&mut self, run: CharSet) -> Option<char>
        requires { self.old.ahead ≡ self.old.rest }
        ensures advances { Advances 1 self.old self.new }
        ensures together { self.new.ahead ≡ self.new.rest }
        ensures found { MatchOption result
            ((starts_with (passes run) self.old.rest ≡ false) × (self.new.rest ≡ self.old.rest))
            (λ c. (passes run c ≡ true) × (self.old.rest ≡ c ∷ self.new.rest)) }
    {
        let c = self.kept?;
        if passes(run, c) { self.take() } else { None }
    }

    /// Returns the character ahead, or `None` at the end.
    #[inline(always)]
    pub fn peek(&self) -> Option<char>
        requires { self.now.ahead ≡ self.now.rest }
        ensures { MatchOption result (self.now.rest ≡ [])
            (λ c. self.now.rest ≡ c ∷ tail self.now.rest) }
    {
        self.kept
    }

    /// Returns the character ahead where it belongs to the run, or else `None`.
    #[inline(always)]
    pub fn peek_if(&self, run: CharSet) -> Option<char>
        requires { self.now.ahead ≡ self.now.rest }
        ensures { MatchOption result (starts_with (passes run) self.now.rest ≡ false)
            (λ c. (passes run c ≡ true) × (self.now.rest ≡ c ∷ tail self.now.rest)) }
    {
        let kept = self.kept;
        match kept {
            Some(c) if passes(run, c) => Some(c),
            _ => None,
        }
    }

    /// Goes past the characters up to the next quote, or up to the end, and returns them as a text.
    #[inline(always)]
    pub fn take_up_to_quote(&mut self) -> &'a str
        requires { self.old.ahead ≡ self.old.rest }
        ensures advances { Advances 2 self.old self.new }
        ensures together { self.new.ahead ≡ self.new.rest }
        ensures moves { self.old.rest ≡ chars result.now ++ self.new.rest }
        ensures unquoted { All (λ c. c ≢ 34) (chars result.now) }
        ensures stops { (self.new.rest ≡ []) ⊎ (self.new.rest ≡ 34 ∷ tail self.new.rest) }
    {
        let place = self.place;
        let run = self.scan.up_to(place, b'"');
        let end = place + run.len();
        if end > place {
            self.go_to(end);
        }
        run
    }

    /// Returns what is ahead.
    #[inline(always)]
    pub fn class_of_next(&mut self) -> CharClass
        requires { self.old.ahead ≡ self.old.rest }
        ensures all { self.new ≡ self.old }
        ensures stays { self.new.rest ≡ self.old.rest }
        ensures found { result ≡ class_of_next self.old.rest }
    {
        match self.kept {
            Some(c) => class_of_char(c),
            None => CharClass::AtEnd,
        }
    }

    /// Goes past the blanks ahead.
    #[inline(always)]
    #[tactic(auto, using(crate::proofs::Looking::blanks))]
    pub fn skip(&mut self)
        ensures advances { Advances 1 self.old self.new }
        ensures together { self.new.ahead ≡ self.new.rest }
        ensures moves { self.new.rest ≡ skip self.old.rest }
    {
        self.mark = self.place;
        while self.take_if(CharSet::Blanks).is_some() {}
    }

    /// Returns what is ahead past blanks, and stays before them.
    #[inline(always)]
    #[tactic(auto, using(crate::proofs::Looking::twice))]
    pub fn class_after_blanks(&mut self) -> CharClass
        ensures advances { Advances 1 self.old self.new }
        ensures stays { self.new.rest ≡ self.old.rest }
        ensures skip_while { self.new.ahead ≡ skip self.old.rest }
        ensures found { result ≡ class_of_next (skip self.old.rest) }
    {
        let mark = self.mark;
        self.skip();
        let found = self.class_of_next();
        self.mark = mark;
        found
    }

    /// Goes past the longest run ahead, which is put to the end of `out`.
    ///
    /// # Errors
    ///
    /// `AllocError` alone.
    #[inline(always)]
    pub fn take_run(&mut self, run: CharSet, out: &mut String) -> Result<(), AllocError>
        requires { self.old.ahead ≡ self.old.rest }
        ensures advances { Advances 1 self.old self.new }
        ensures together { self.new.ahead ≡ self.new.rest }
        ensures moves { OnOk result (self.new.rest ≡ skip_while (passes run) self.old.rest) }
        ensures found { OnOk result (string_bytes out.new
            ≡ string_bytes out.old ++ encode_utf8_all (take_while (passes run) self.old.rest)) }
    {
        let (here, taken) = self.take_out().after_run(run, out);
        *self = here;
        taken
    }

    /// Does what `take_run` does, over a cursor that is moved in and out.
    #[inline(always)]
    #[tactic(auto, using(avn_grammar::proofs::Runs::runs))]
    fn after_run(self, run: CharSet, out: &mut String) -> (Cursor<'a>, Result<(), AllocError>)
        requires { self.ahead ≡ self.rest }
        ensures advances { Advances 1 self.entry result.0 }
        ensures together { result.0.ahead ≡ result.0.rest }
        ensures moves { OnOk result.1 (result.0.rest ≡ skip_while (passes run) self.entry.rest) }
        ensures found { OnOk result.1 (string_bytes out.new
            ≡ string_bytes out.old ++ encode_utf8_all (take_while (passes run) self.entry.rest)) }
    {
        let mut here = self;
        while let Some(c) = here.peek_if(run) {
            if out.push(c).is_err() {
                return (here, Err(AllocError));
            }
            let _c = here.take();
        }
        (here, Ok(()))
    }

    /// Returns whether a point and a digit are ahead.
    #[inline(always)]
    #[tactic(auto, using(avn_grammar::proofs::Runs::fractions))]
    pub fn has_fraction(&mut self) -> bool
        requires { self.old.ahead ≡ self.old.rest }
        ensures looks { LooksAtMost 1 self.old self.new }
        ensures ahead { self.new.ahead ≡ self.old.ahead }
        ensures stays { self.new.rest ≡ self.old.rest }
        ensures found { result ≡ has_fraction self.old.rest }
    {
        match self.kept {
            Some('.') => match self.scan.look(self.place + 1) {
                Some(c) => passes(CharSet::Digits, c),
                None => false,
            },
            _ => false,
        }
    }

    /// Goes to the place.
    fn go_to(&mut self, place: usize)
        requires { IsCharBoundary self.old.text place }
        ensures looks { LooksAtMost 1 self.old self.new }
        ensures rest { self.new.rest ≡ after self.old.text place }
        ensures together { self.new.ahead ≡ self.new.rest }
    {
        self.kept = self.scan.look(place);
        self.mark = place;
        self.place = place;
    }

    /// Goes back to the mark.
    fn rewind(&mut self)
        ensures looks { LooksAtMost 1 self.old self.new }
        ensures stays { self.new.rest ≡ self.old.rest }
        ensures together { self.new.ahead ≡ self.new.rest }
    {
        self.go_to(self.mark);
    }

    /// Goes back to the text's beginning.
    pub fn restart(&mut self)
        ensures looks { LooksAtMost 1 self.old self.new }
        ensures rest { self.new.rest ≡ chars self.old.text }
        ensures together { self.new.ahead ≡ self.new.rest }
    {
        self.scan.has_edge_at_start();
        self.go_to(0);
    }

    /// Returns a copy of the first `at_most` characters of the rest, or of fewer where it has
    /// fewer.
    ///
    /// # Errors
    ///
    /// `OutOfMemory` alone.
    pub fn excerpt(&mut self, alloc: Global, at_most: usize) -> Result<String, OutOfMemory>
        ensures looks { LooksAtMost (length self.old.rest) self.old self.new }
        ensures copied { IfOk result (λ s. string_bytes s
            ≡ encode_utf8_all (take at_most self.old.rest)) }
    {
        self.scan.excerpt(alloc, self.mark, at_most)
    }

    /// Returns a copy of the rest.
    ///
    /// # Errors
    ///
    /// `OutOfMemory` alone.
    fn all_of_rest(&mut self, alloc: Global) -> Result<String, OutOfMemory>
        ensures looks { LooksAtMost (length self.old.rest) self.old self.new }
        ensures copied { IfOk result (λ s. string_bytes s ≡ encode_utf8_all self.old.rest) }
    {
        self.scan.has_short_rest(self.mark);
        self.excerpt(alloc, usize::MAX)
    }

    /// Returns whether the rest is white space only. The cursor is somewhere in the rest after it.
    #[tactic(auto, using(crate::proofs::Looking::whites))]
    fn is_white(&mut self) -> bool
        ensures looks { LooksAtMost (length self.old.rest + 1) self.old self.new }
        ensures yes { result ≡ true → skip_while is_whitespace self.old.rest ≡ [] }
        ensures no { result ≡ false → skip_while is_whitespace self.old.rest ≢ [] }
    {
        self.rewind();
        while let Some(c) = self.take() {
            if !c.is_whitespace() {
                return false;
            }
        }
        true
    }

    /// Returns a copy of the rest, or `None` where it is white space only.
    ///
    /// # Errors
    ///
    /// `OutOfMemory` alone.
    pub fn other_than_white(&mut self, alloc: Global) -> Result<Option<String>, OutOfMemory>
        ensures looks { LooksAtMost (2 * length self.old.rest + 2) self.old self.new }
        ensures found { IfOk result (λ o. MatchOption o (skip_while is_whitespace self.old.rest ≡
            [])
            (λ s. (skip_while is_whitespace self.old.rest ≢ [])
            × (string_bytes s ≡ encode_utf8_all self.old.rest))) }
    {
        let start = self.mark;
        if self.is_white() {
            return Ok(None);
        }
        self.go_to(start);
        let rest = self.all_of_rest(alloc)?;
        Ok(Some(rest))
    }

    /// Goes past an identifier, blanks and a colon where these are ahead, and returns whether they
    /// were. Else it stays.
    pub fn take_choice(&mut self) -> bool
        requires { self.old.ahead ≡ self.old.rest }
        ensures looks { LooksAtMost (length self.old.ahead + 1) self.old self.new }
        ensures together { self.new.ahead ≡ self.new.rest }
        ensures advances { result ≡ true → Advances 1 self.old self.new }
        ensures shorter { result ≡ true → length self.new.rest < length self.old.rest }
        ensures yes { result ≡ true → BeginsChoice self.old.rest }
        ensures moves { result ≡ true
            → self.new.rest ≡ tail (skip (skip_while is_name self.old.rest)) }
        ensures no { result ≡ false → BeginsChoice self.old.rest → ⊥ }
        ensures stays { result ≡ false → self.new.rest ≡ self.old.rest }
    {
        match self.class_of_next() {
            CharClass::Letter => {}
            _ => return false,
        }
        let start = self.mark;
        self.pass_run(CharSet::Name);
        match self.class_after_blanks() {
            CharClass::Colon => {
                self.skip();
                let _colon = self.take();
                true
            }
            _ => {
                self.go_to(start);
                false
            }
        }
    }

    /// Goes past the longest run ahead.
    #[tactic(auto, using(avn_grammar::proofs::Runs::runs))]
    fn pass_run(&mut self, run: CharSet)
        requires { self.old.ahead ≡ self.old.rest }
        ensures advances { Advances 1 self.old self.new }
        ensures together { self.new.ahead ≡ self.new.rest }
        ensures moves { self.new.rest ≡ skip_while (passes run) self.old.rest }
    {
        while self.take_if(run).is_some() {}
    }
}
