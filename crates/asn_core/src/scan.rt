//! Defines a text that is read a character at a time, by calls that are counted.
ghost use Rattle.std.specs.Prelude.{◌≡◌, ◌≢◌, ◌⊎◌, ◌+◌, ◌-◌, ◌<◌, ◌≤◌, ◌^◌, [], ◌∷◌, ◌++◌, min};
ghost use Rattle.std.specs.Prelude.{MatchOption, All, length, take, drop, OnOk, OnErr, IfOk};
ghost use Rattle.std.specs.Prelude.{string_bytes};
ghost use Rattle.std.specs.Str.{IsCharBoundary, encode_utf8_all, chars};
ghost use Rattle.std.specs.Char.{len_utf8};
ghost use Rattle.asn_core.specs.Seen.{after};

use crate::memory::OutOfMemory;
use memchr::memchr;
use std::alloc::Global;
use std::marker::Model;

/// Shows a text whose characters are reached only through three counted calls, so that its count
/// bounds the work of a reader. A place is a byte offset on a character's edge.
#[derive(Drop)]
pub struct Scan<'a> {
    /// The text that is read.
    text: &'a str,
    /// The looks so far.
    count: u128,
}

impl<'a> Model for Scan<'a> {
    ghost use Rattle.asn_core.specs.Seen.{Seen, seen_code};

    ghost Value = { Seen };

    ghost coded = { seen_code };

    ghost view = { λ s. record { text = s.text.now; looks = s.count } };
}

impl<'a> Scan<'a> {
    /// Returns a scan of the text, of which nothing was looked at.
    pub fn new(text: &'a str) -> Scan<'a>
        ensures text { result.text ≡ text.now }
        ensures count { result.looks ≡ 0 }
    {
        Scan { text, count: 0 }
    }

    /// Returns the character at the place, none at the end. The count rises by one, up to the
    /// greatest `u128`.
    #[inline(always)]
    pub fn look(&mut self, place: usize) -> Option<char>
        requires { IsCharBoundary self.old.text place }
        ensures same { self.new.text ≡ self.old.text }
        ensures counted { self.new.looks ≡ min (self.old.looks + 1) (2 ^ 128 - 1) }
        ensures rises { self.old.looks ≤ self.new.looks }
        ensures found { MatchOption result (after self.old.text place ≡ [])
            (λ c. after self.old.text place ≡ c ∷ after self.old.text (place + len_utf8 c)) }
        ensures fits { length self.old.text < 2 ^ 64 }
        ensures edge { MatchOption result (place ≡ length self.old.text)
            (λ c. IsCharBoundary self.old.text (place + len_utf8 c)) }
    {
        self.count = self.count.saturating_add(1);
        let text = whole(self.text);
        if place < text.len() {
            let b = text.as_bytes()[place];
            if b < 128 {
                return Some(b as char);
            }
        }
        wide_at(text, place)
    }

    /// Returns the text from the place up to the first `stop`, an ASCII character, or up to the end
    /// where there is none. The count rises by the characters returned, up to the greatest `u128`.
    pub fn up_to(&mut self, place: usize, stop: u8) -> &'a str
        requires place { IsCharBoundary self.old.text place }
        requires ascii { stop < 128 }
        ensures same { self.new.text ≡ self.old.text }
        ensures counted { self.new.looks
            ≡ min (self.old.looks + length (chars result.now)) (2 ^ 128 - 1) }
        ensures rises { self.old.looks ≤ self.new.looks }
        ensures passed { after self.old.text place
            ≡ chars result.now ++ after self.old.text (place + length result.now) }
        ensures before { All (λ c. c ≢ stop) (chars result.now) }
        ensures stops { (after self.old.text (place + length result.now) ≡ [])
            ⊎ (after self.old.text (place + length result.now)
            ≡ stop ∷ after self.old.text (place + length result.now + 1)) }
        ensures edge { IsCharBoundary self.old.text (place + length result.now) }
    {
        let passed = text_before(&whole(self.text)[place..], stop);
        self.count = self.count.saturating_add(count_chars(passed) as u128);
        passed
    }

    /// Returns a copy of the first `at_most` characters from the place on, or of fewer at the end.
    /// The count rises by the characters copied, up to the greatest `u128`.
    ///
    /// # Errors
    ///
    /// `OutOfMemory`, and then the scan is as it was.
    pub fn excerpt(
        &mut self,
        alloc: Global,
        place: usize,
        at_most: usize,
    ) -> Result<String, OutOfMemory>
        requires { IsCharBoundary self.old.text place }
        ensures same { self.new.text ≡ self.old.text }
        ensures counted { OnOk result (self.new.looks
            ≡ min (self.old.looks + length (take at_most (after self.old.text place)))
            (2 ^ 128 - 1)) }
        ensures rises { self.old.looks ≤ self.new.looks }
        ensures unchanged { OnErr result (self.new ≡ self.old) }
        ensures copied { IfOk result (λ s. string_bytes s
            ≡ encode_utf8_all (take at_most (after self.old.text place))) }
    {
        let mut out = String::new(alloc);
        let mut at = place;
        let mut copied = 0usize;
        while copied < at_most {
            match char_at(self.text, at) {
                Some(c) => {
                    out.push(c)?;
                    at += c.len_utf8();
                    copied += 1;
                }
                None => break,
            }
        }
        self.count = self.count.saturating_add(copied as u128);
        Ok(out)
    }

    /// States that the text's start is a character's edge.
    pub fn has_edge_at_start(&self)
        ensures { IsCharBoundary self.now.text 0 }
    {
        let _text = whole(self.text);
    }

    /// States that a machine word can count the characters from a place on.
    pub fn has_short_rest(&self, place: usize)
        requires { IsCharBoundary self.now.text place }
        ensures { length (after self.now.text place) < 2 ^ 64 }
    {
        let _text = whole(self.text);
    }

    /// Returns how many characters were looked at or copied.
    pub fn count(&self) -> u128
        ensures { result ≡ self.now.looks }
    {
        self.count
    }
}

/// Returns the character at the place, none at the end. It stands apart, so that the common case of
/// an ASCII character stays short.
#[inline(never)]
fn wide_at(text: &str, place: usize) -> Option<char>
    requires { IsCharBoundary text.now place }
    ensures found { MatchOption result (after text.now place ≡ [])
        (λ c. after text.now place ≡ c ∷ after text.now (place + len_utf8 c)) }
    ensures edge { MatchOption result (place ≡ length text.now)
        (λ c. IsCharBoundary text.now (place + len_utf8 c)) }
{
    text[place..].chars().next()
}

/// Returns the character at the place, none at the end.
fn char_at(text: &str, place: usize) -> Option<char>
    requires { IsCharBoundary text.now place }
    ensures found { MatchOption result (after text.now place ≡ [])
        (λ c. after text.now place ≡ c ∷ after text.now (place + len_utf8 c)) }
    ensures fits { length text.now < 2 ^ 64 }
    ensures edge { MatchOption result (place ≡ length text.now)
        (λ c. IsCharBoundary text.now (place + len_utf8 c)) }
{
    let text = whole(text);
    wide_at(text, place)
}

/// Returns the text before the first `stop`, an ASCII character, or all where there is none.
fn text_before(text: &str, stop: u8) -> &str
    requires { stop < 128 }
    ensures cut { result.now ≡ take (length result.now) text.now }
    ensures before { All (λ b. b ≢ stop) result.now }
    ensures stops { (length result.now ≡ length text.now)
        ⊎ (drop (length result.now) text.now ≡ stop ∷ drop (length result.now + 1) text.now) }
    ensures edge { IsCharBoundary text.now (length result.now) }
{
    match memchr(stop, text.as_bytes()) {
        Some(end) => &text[..end],
        None => text,
    }
}

/// Returns how many characters the text has.
fn count_chars(text: &str) -> usize
    ensures { result ≡ length (chars text.now) }
{
    if text.is_ascii() {
        text.len()
    } else {
        text.chars().count()
    }
}

/// Returns the text itself, of which a proof learns here that it is UTF-8.
fn whole(text: &str) -> &str
    ensures { result.now ≡ text.now }
{
    text
}
