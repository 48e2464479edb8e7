//! Says what may stand at a place of a text in value notation, and what may follow.
ghost use Rattle.avn_grammar.specs.Chars.{is_letter, starts_with};
ghost use Rattle.avn_places.specs.Places.{begins, behind_turn, item_in, item_turn, named_turn};
ghost use Rattle.avn_places.specs.Places.{holding, past_name, turn, value_turn};
ghost use Rattle.std.specs.Prelude.{◌≡◌};

use crate::braces::{Braces, Item};
use crate::tokens::{Run, begins_number, past_run, past_sign, simple_value};

/// States what may stand at a place.
#[derive(Clone, Copy, Drop)]
pub enum Expected {
    /// Is a value.
    Value,
    /// Is an item of braces: a value, or one after its name.
    Item,
    /// Is what follows a value, an integer or another one.
    Behind {
        /// States whether the value is an integer.
        is_integer: bool,
    },
}

/// Is what a turn over the text leads to.
#[derive(Clone, Copy, Drop)]
pub enum Then {
    /// Is what is expected next.
    On(Expected),
    /// Is an opening brace, after which an item is expected.
    Opens,
    /// Is what the innermost braces are now, and what is expected next.
    Holds(Braces, Expected),
    /// Is the closing brace of the innermost braces.
    Closes,
    /// Is that what is expected doesn't stand there.
    Fault,
}

/// Returns whether the text begins with a letter, as a name does.
fn begins_name(text: &str) -> bool
    ensures { result ≡ starts_with is_letter text.now }
{
    matches!(text.as_bytes(), [b'A'..=b'Z' | b'a'..=b'z', ..])
}

/// Passes the value at the front of the text, or the front of it: the name of an alternative with
/// its colon, or an opening brace.
fn value(text: &str) -> (Then, &str)
    ensures { (result.0, result.1.now) ≡ value_turn text.now }
{
    if begins_name(text) {
        let rest = past_run(Run::Name, text);
        return match past_sign(':', past_run(Run::Spaces, rest)) {
            Some(payload) => (Then::On(Expected::Value), payload),
            None => (Then::On(Expected::Behind { is_integer: false }), rest),
        };
    }
    if let Some(items) = past_sign('{', text) {
        return match past_sign('}', past_run(Run::Spaces, items)) {
            Some(rest) => (Then::On(Expected::Behind { is_integer: false }), rest),
            None => (Then::Opens, items),
        };
    }
    match simple_value(text) {
        Some(simple) => {
            let is_integer = simple.is_integer;
            (Then::On(Expected::Behind { is_integer }), simple.rest)
        }
        None => (Then::Fault, text),
    }
}

/// Returns what the braces lead to that have an item more, or `None` where they can't have it.
fn holding<'t>(
    more: Option<Braces>,
    next: Expected,
    text: &'t str,
    rest: &'t str,
) -> (Then, &'t str)
    ensures { (result.0, result.1.now) ≡ holding more next text.now rest.now }
{
    match more {
        Some(braces) => (Then::Holds(braces, next), rest),
        None => (Then::Fault, text),
    }
}

/// Begins the item at the front of the text, after whose name is this: passes its name, or the
/// word that it is, or leaves the name of its alternative.
fn named<'t>(braces: Braces, text: &'t str, behind: &str) -> (Then, &'t str)
    ensures { (result.0, result.1.now) ≡ named_turn braces text.now behind.now }
{
    match behind.as_bytes() {
        [b':', ..] => holding(braces.with_item(Item::Other), Expected::Value, text, text),
        [b',' | b'}', ..] => {
            let next = Expected::Behind { is_integer: false };
            let rest = past_run(Run::Name, text);
            holding(braces.with_item(Item::Other), next, text, rest)
        }
        _ => {
            let rest = past_run(Run::Name, text);
            holding(braces.with_item(Item::Named), Expected::Value, text, rest)
        }
    }
}

/// Begins the item at the front of the text.
fn item(braces: Braces, text: &str) -> (Then, &str)
    ensures { (result.0, result.1.now) ≡ item_turn braces text.now }
{
    if begins_name(text) {
        let behind = past_run(Run::Spaces, past_run(Run::Name, text));
        return named(braces, text, behind);
    }
    holding(braces.with_item(Item::Plain), Expected::Value, text, text)
}

/// Passes what stands after a value: a comma or a closing brace, or nothing before a number that
/// follows other numbers, or the end of the text.
fn behind(innermost: Option<Braces>, is_integer: bool, text: &str) -> (Then, &str)
    ensures { (result.0, result.1.now) ≡ behind_turn innermost is_integer text.now }
{
    let Some(before) = innermost else {
        return (Then::Fault, text.trim_start());
    };
    let braces = before.behind_value(is_integer);
    if let Some(rest) = past_sign('}', text) {
        return (Then::Closes, rest);
    }
    if let Some(rest) = past_sign(',', text) {
        return (Then::Holds(braces, Expected::Item), rest);
    }
    if braces.takes_number() && begins_number(text) {
        return (Then::Holds(braces, Expected::Item), text);
    }
    (Then::Fault, text)
}

/// Returns what stands at the front of the text, where this is expected in these innermost braces,
/// and what follows it. The text begins with no white space.
pub fn turn(innermost: Option<Braces>, expected: Expected, text: &str) -> (Then, &str)
    ensures { (result.0, result.1.now) ≡ turn innermost expected text.now }
{
    match expected {
        Expected::Value => value(text),
        Expected::Item => match innermost {
            Some(braces) => item(braces, text),
            None => (Then::Fault, text),
        },
        Expected::Behind { is_integer } => behind(innermost, is_integer, text),
    }
}
