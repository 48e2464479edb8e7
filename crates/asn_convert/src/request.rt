//! Reads a request line: `<from> <to> <type>`, three words, of which the first two name a text
//! notation and the third a sample type; the same with a limit on the levels of AVN after them;
//! `make <n>`, with a number of entries; `module`; `grows <Old> <New>`, with the names of two types
//! of the module that follows; or `keep <from> <old> <new>`, with a notation and two sample types.
ghost use Rattle.std.specs.Option.{option_map};
ghost use Rattle.std.specs.Prelude.{◌≡◌, ◌∷◌, [], MatchOption, None, Some};
ghost use Rattle.asn_convert.specs.Lines.{words};
ghost use Rattle.asn_convert.specs.RequestView.{request_view};
ghost use Rattle.asn_convert.specs.Requests.{before_text, conversion_for, count_of, growth_for};
ghost use Rattle.asn_convert.specs.Requests.{keeping_for, limit_of, names_type, notation_named};
ghost use Rattle.asn_convert.specs.Requests.{request_of_words, short_number};
ghost use Rattle.asn_samples.specs.Samples.{sample_named};

use crate::limits::MOST_ENTRIES;
use crate::lines::next_word;
use asn_core::Codec;
use asn_notation::is_type_name;
use asn_samples::Sample;
use avn_grammar::limits::{GREATEST_LEVEL_LIMIT, LEVEL_LIMIT};
use avn_grammar::names::is_identifier;

/// Holds what an input asks for. Contracts see it as the `Request` of `specs/Requests.antt`
/// (`request_view`).
#[derive(Clone, Copy, Drop)]
pub enum Request<'a> {
    /// Asks to convert a value of the sample type from one text notation to another.
    Convert {
        /// Names the notation of the text that is read.
        from: Codec,
        /// Names the notation of the text that is written.
        to: Codec,
        /// Names the type that the value has.
        sample: Sample,
        /// Limits the levels of AVN that are read: `LEVEL_LIMIT` where the line names no limit, at
        /// most `GREATEST_LEVEL_LIMIT` where it does.
        limit: usize,
    },
    /// Asks to make a document, to convert it to AVN and back, and to report the lengths.
    Make {
        /// Counts the entries, at most `MOST_ENTRIES`.
        entries: u32,
    },
    /// Asks to print the module that the text stands for.
    Module,
    /// Asks whether a type of the module that the text stands for is a later version of another.
    Grows {
        /// Names the older type.
        old: &'a str,
        /// Names the newer type.
        new: &'a str,
    },
    /// Asks to cut a stream of values of the newer sample type, one a line, to what the older one
    /// knows.
    Keep {
        /// Names the notation of the stream, one of the two of texts.
        from: Codec,
        /// Names the older type.
        old: Sample,
        /// Names the newer type.
        new: Sample,
    },
}

/// Returns the text notation of that name, `jer` or `avn`, and `None` for any other.
fn notation(name: &str) -> Option<Codec>
    ensures { result ≡ notation_named name.now }
{
    match name {
        "jer" => Some(Codec::Jer),
        "avn" => Some(Codec::Avn),
        _ => None,
    }
}

/// Returns the request to convert by these three words and the limit, or `None` where one of the
/// words is no name or there is no limit.
fn conversion<'a>(from: &str, to: &str, name: &str, limit: Option<usize>) -> Option<Request<'a>>
    ensures { option_map request_view result ≡ conversion_for (notation_named from.now)
        (notation_named to.now) (sample_named name.now) limit }
{
    match (notation(from), notation(to), Sample::named(name), limit) {
        (Some(from), Some(to), Some(sample), Some(limit)) => Some(Request::Convert {
            from,
            to,
            sample,
            limit,
        }),
        _ => None,
    }
}

/// Returns the number that a word is, of at least one digit and at most `digits`, where it is at
/// most `most`, or `None` for any other word.
fn number(word: &str, digits: usize, most: u32) -> Option<u32>
    ensures { result ≡ short_number digits most word.now }
{
    // A sign is no digit.
    let first = *word.as_bytes().first()?;
    if first < b'0' {
        return None;
    }
    if word.len() > digits {
        return None;
    }
    let number = word.parse::<u32>().ok()?;
    if number > most {
        return None;
    }
    Some(number)
}

/// Returns the number of entries that a word is, one to six digits and at most `MOST_ENTRIES`, or
/// `None` for any other word.
fn count(word: &str) -> Option<u32>
    ensures { result ≡ count_of word.now }
{
    number(word, 6, MOST_ENTRIES)
}

/// Returns the limit on levels that a word is, one to three digits and at most
/// `GREATEST_LEVEL_LIMIT`, or `None` for any other word.
fn level_limit(word: &str) -> Option<usize>
    ensures { result ≡ limit_of word.now }
{
    match number(word, 3, GREATEST_LEVEL_LIMIT as u32) {
        Some(limit) => Some(limit as usize),
        None => None,
    }
}

/// Returns whether the word is the name of a type of a module.
fn names_type(word: &str) -> bool
    ensures { result ≡ names_type word.now }
{
    is_identifier(word) && is_type_name(word)
}

/// Returns the request to compare the types of these names, or `None` where one of the words is no
/// name of a type.
fn growth<'a>(old: &'a str, new: &'a str) -> Option<Request<'a>>
    ensures { option_map request_view result ≡ growth_for old.now new.now }
{
    if names_type(old) && names_type(new) {
        Some(Request::Grows { old, new })
    } else {
        None
    }
}

/// Returns the request to cut a stream by these three words, or `None` where one of the words is no
/// name.
fn keeping<'a>(from: &str, old: &str, new: &str) -> Option<Request<'a>>
    ensures { option_map request_view result ≡ keeping_for (notation_named from.now)
        (sample_named old.now) (sample_named new.now) }
{
    match (notation(from), Sample::named(old), Sample::named(new)) {
        (Some(from), Some(old), Some(new)) => Some(Request::Keep { from, old, new }),
        _ => None,
    }
}

/// Returns the request that one word is, or `None` where it is none.
fn of_one_word<'a>(word: &str) -> Option<Request<'a>>
    ensures { option_map request_view result ≡ request_of_words (word.now ∷ []) }
{
    match word {
        "module" => Some(Request::Module),
        _ => None,
    }
}

/// Returns the request that two words are, or `None` where they are none.
fn of_two_words<'a>(first: &str, second: &str) -> Option<Request<'a>>
    ensures { option_map request_view result ≡ request_of_words (first.now ∷ second.now ∷ []) }
{
    if first != "make" {
        return None;
    }
    Some(Request::Make {
        entries: count(second)?,
    })
}

/// Returns the request that three words are, or `None` where they are none.
fn of_three_words<'a>(first: &str, second: &'a str, third: &'a str) -> Option<Request<'a>>
    ensures { option_map request_view result
        ≡ request_of_words (first.now ∷ second.now ∷ third.now ∷ []) }
{
    match first {
        "grows" => growth(second, third),
        _ => conversion(first, second, third, Some(LEVEL_LIMIT)),
    }
}

/// Returns the request that four words are, or `None` where they are none.
fn of_four_words<'a>(first: &str, second: &str, third: &str, fourth: &str) -> Option<Request<'a>>
    ensures { option_map request_view result
        ≡ request_of_words (first.now ∷ second.now ∷ third.now ∷ fourth.now ∷ []) }
{
    match first {
        "keep" => keeping(second, third, fourth),
        _ => conversion(first, second, third, level_limit(fourth)),
    }
}

/// Returns the request of a line, or `None` where it makes none: where it has no word or more than
/// four, or one of them is not what stands there in a request.
fn of_line(line: &str) -> Option<Request<'_>>
    ensures { option_map request_view result ≡ request_of_words (words line.now) }
{
    let (first, rest) = next_word(line)?;
    let Some((second, rest)) = next_word(rest) else {
        return of_one_word(first);
    };
    let Some((third, rest)) = next_word(rest) else {
        return of_two_words(first, second);
    };
    let Some((fourth, rest)) = next_word(rest) else {
        return of_three_words(first, second, third);
    };
    if next_word(rest).is_some() {
        return None;
    }
    of_four_words(first, second, third, fourth)
}

/// Returns the request that a line makes before a text, or `None` where it makes none: a document
/// is made without a text.
pub fn requested<'a>(line: &'a str, text: &str) -> Option<Request<'a>>
    ensures { MatchOption result
        (before_text (request_of_words (words line.now)) text.now ≡ None)
        (λ r. before_text (request_of_words (words line.now)) text.now ≡ Some (request_view r)) }
{
    match of_line(line)? {
        Request::Make { .. } if !text.is_empty() => None,
        request => Some(request),
    }
}
