//! Texts with their tokens, and texts that stop.
use asn_lexer::{Initial, Kind, LexFault, place_of, tokens};
use std::alloc::Global;
use std::process::Abort;
use std::test::Fail;

/// Splits the text, and compares its tokens, each as it stands in the text, with a bar after it.
fn splits(rt: &impl Abort, alloc: Global, text: &str, expected: &str) -> Result<(), Fail> {
    let mut shown = String::new(alloc);
    match tokens(alloc, text) {
        Ok(tokens) => {
            for token in &tokens {
                shown.push_str(text.get(token.start..token.end).unwrap_or("?"))?;
                shown.push_str("|")?;
            }
        }
        Err(_fault) => shown.push_str("refused")?,
    }
    assert_eq!(rt; shown.as_str(), expected);
    Ok(())
}

/// Splits the text, which stops at the place.
fn stops(rt: &impl Abort, alloc: Global, text: &str, place: usize) -> Result<(), Fail> {
    match tokens(alloc, text) {
        Ok(_tokens) => assert!(rt; false, "tokens"),
        Err(fault) => assert!(rt; fault == LexFault::NoToken(place)),
    }
    Ok(())
}

/// Lists texts with their tokens. Comments are those of X.680, section 12.6, real numbers those of
/// 12.9.
const TEXTS: [(&str, &str); 34] = [
    ("", ""),
    (" \t\r\n\u{b}\u{c}", ""),
    ("A ::= INTEGER", "A|::=|INTEGER|"),
    ("A-B c-d-9 e_f", "A-B|c-d-9|e_f|"),
    ("a--b--c", "a|c|"),
    ("a- b-_c d-", "a|-|b-_c|d|-|"),
    ("a -- to the end\nb", "a|b|"),
    ("a -- to the end\rb", "a|b|"),
    ("a -- no end", "a|"),
    ("a ---- b", "a|b|"),
    ("a --- b", "a|"),
    ("a ----- b", "a|-|b|"),
    ("a -- /* -- b */ c", "a|b|*|/|c|"),
    ("a /* -- */ b", "a|b|"),
    ("a /* b /* c */ d */ e", "a|e|"),
    ("a /*/ b */ c", "a|c|"),
    ("a /**/ b /***/ c", "a|b|c|"),
    ("0 12 0x1F 0x 007", "0|12|0x1F|0|x|007|"),
    ("1..5 1.5 (MIN..MAX)", "1|..|5|1.5|(|MIN|..|MAX|)|"),
    ("1. 1.,1.e5 0.5", "1.|1.|,|1.e5|0.5|"),
    ("1.5e3 15E-2 1e+07", "1.5e3|15E-2|1e+07|"),
    ("1e 1e- 1ex 1.5f", "1|e|1|e|-|1|ex|1.5|f|"),
    ("0.1..0.5 1...,2 1.2.3", "0.1|..|0.5|1|...|,|2|1.2|.|3|"),
    ("{ ... , ..., .. }", "{|...|,|...|,|..|}|"),
    ("[[ [ ]] ] [[]]", "[[|[|]]|]|[[|]]|"),
    (":: = ::= :::=", ":|:|=|::=|:|::=|"),
    (
        "{}()[],;:.|^<>@!&*/+=-",
        "{|}|(|)|[|]|,|;|:|.|||^|<|>|@|!|&|*|/|+|=|-|",
    ),
    ("\"ABCDE FGH\n IJK\"\"XYZ\"", "\"ABCDE FGH\n IJK\"\"XYZ\"|"),
    ("\"\" \"\"\"\" \"-- /*\"", "\"\"|\"\"\"\"|\"-- /*\"|"),
    (
        "'01101100'B 'AB0196'H ''H ''B",
        "'01101100'B|'AB0196'H|''H|''B|",
    ),
    ("'0 1\n1'B 'A B'Hx", "'0 1\n1'B|'A B'H|x|"),
    ("a\u{a0}b \u{a0}\u{a0} c\u{a0}", "a|b|c|"),
    ("'0\u{a0}1'B 'A\u{a0} B'H", "'0\u{a0}1'B|'A\u{a0} B'H|"),
    (
        "\"\u{e4}\" -- \u{20ac} -- /* \u{1f600} */ a",
        "\"\u{e4}\"|a|",
    ),
];

/// Texts have these tokens.
#[test]
fn splits_texts(rt: HostRuntime) -> Result<(), Fail> {
    for row in TEXTS.iter() {
        splits(&rt, rt.alloc(), row.0, row.1)?;
    }
    Ok(())
}

/// Lists texts that stop, with the places where they do.
const STOPS: [(&str, usize); 14] = [
    ("a /* b", 2),
    ("a /* /* */ b", 2),
    ("a \"b\"\"", 2),
    ("\"\u{e4}\" \"", 5),
    ("a '01'", 2),
    ("a '012'B", 2),
    ("a 'ab'H", 2),
    ("a '0' B", 2),
    ("a '", 2),
    ("_a", 0),
    ("A ::= %", 6),
    ("a\u{a2}b", 1),
    ("\u{a0}\u{2011}", 2),
    ("/*/", 0),
];

/// Texts stop at what is no token.
#[test]
fn stops_at_other_parts(rt: HostRuntime) -> Result<(), Fail> {
    for row in STOPS.iter() {
        stops(&rt, rt.alloc(), row.0, row.1)?;
    }
    Ok(())
}

/// Tokens have their kinds.
#[test]
fn tells_kinds(rt: HostRuntime) -> Result<(), Fail> {
    let found = tokens(rt.alloc(), "a A 1 1.5 \"s\" '1'B '1'H ::= [[")?;
    let kinds = [
        Kind::Name(Initial::Small),
        Kind::Name(Initial::Capital),
        Kind::Number,
        Kind::RealNumber,
        Kind::Cstring,
        Kind::Bstring,
        Kind::Hstring,
        Kind::Assignment,
        Kind::OpenVersion,
    ];
    assert_eq!(&rt; found.len(), kinds.len());
    for (token, kind) in found.iter().zip(kinds.iter()) {
        assert!(&rt; token.kind == *kind);
    }
    Ok(())
}

/// 100,000 comments that each begin within the one before are one comment where they end, and stop
/// at the first where one of them doesn't.
#[test]
fn nests_comments(rt: HostRuntime) -> Result<(), Fail> {
    let mut text = String::new(rt.alloc());
    for _ in 0..100_000 {
        text.push_str("/*")?;
    }
    stops(&rt, rt.alloc(), &text, 0)?;
    for _ in 0..99_999 {
        text.push_str("*/")?;
    }
    stops(&rt, rt.alloc(), &text, 0)?;
    text.push_str("*/ a")?;
    splits(&rt, rt.alloc(), &text, "a|")
}

/// Lists places of a text, in bytes, with their lines and columns.
const PLACES: [(usize, usize, usize); 7] = [
    (0, 1, 1),
    (1, 1, 2),
    (3, 1, 3),
    (4, 2, 1),
    (5, 3, 1),
    (6, 3, 2),
    (99, 3, 3),
];

/// Lines and columns are counted from 1, columns in characters.
#[test]
fn tells_places(rt: HostRuntime) -> Result<(), Fail> {
    for row in PLACES.iter() {
        let place = place_of("a\u{e4}\n\nbc", row.0);
        assert_eq!(&rt; place.line, row.1);
        assert_eq!(&rt; place.column, row.2);
    }
    Ok(())
}
