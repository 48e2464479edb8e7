//! Reads texts that are deep or long with ample memory, and counts the looks at them.
use crate::avn::kinds::{is_refused, let_go};
use asn_core::Scan;
use asn_fault::{DecodeError, DecodeErrorKind};
use avn_value::{
    AvnValue, GREATEST_LEVEL_LIMIT, LEVEL_LIMIT, parse_avn, parse_scan, parse_scan_within,
};
use std::alloc::{AllocError, Global};
use std::process::Abort;
use std::test::Fail;

/// Adds a part to the text a number of times.
fn add_times(text: &mut String, part: &str, times: usize) -> Result<(), AllocError> {
    for _ in 0..times {
        text.push_str(part)?;
    }
    Ok(())
}

/// Returns the text `before` a number of times, `within`, and `after` as often.
fn nested(
    alloc: Global,
    depth: usize,
    before: &str,
    within: &str,
    after: &str,
) -> Result<String, AllocError> {
    let mut text = String::new(alloc);
    add_times(&mut text, before, depth)?;
    text.push_str(within)?;
    add_times(&mut text, after, depth)?;
    Ok(text)
}

/// Returns whether the error is that values are nested beyond the limit.
fn is_too_deep(error: &DecodeError) -> bool {
    matches!(error.kind, DecodeErrorKind::ExceedsMaxParseDepth)
}

/// Returns whether the answer to a text is its value.
///
/// # Errors
///
/// Those of reading, but for texts that are nested beyond the limit.
fn is_read(answer: Result<AvnValue, DecodeError>) -> Result<bool, Fail> {
    match answer {
        Ok(value) => {
            let_go(value);
            Ok(true)
        }
        Err(error) => {
            let is_deep = is_too_deep(&error);
            let_go(error);
            if is_deep {
                Ok(false)
            } else {
                Err(Fail::from("another error"))
            }
        }
    }
}

/// Lists how often which text is opened, what stands within, what closes, and whether it is read.
const DEPTHS: [(usize, &str, &str, &str, bool); 10] = [
    // The innermost of 65 braces is a value at level 64, and has no items.
    (65, "{", "", "}", true),
    (66, "{", "", "}", false),
    // A number within braces is a value of its own, one level further in.
    (64, "{", "1", "}", true),
    (65, "{", "1", "}", false),
    // A bare identifier is not looked for as a value.
    (65, "{", "a", "}", true),
    // The payload of a choice directly in braces has the level of the items.
    (64, "{", "a : 1", "}", true),
    (64, "{", "f a : 1", "}", false),
    // Each payload is one level further in.
    (64, "a : ", "1", "", true),
    (65, "a : ", "1", "", false),
    // Deep texts are refused without deep recursion.
    (100_000, "{", "", "", false),
];

/// Values are read down to level 64 and refused for depth beyond it. 64 is the library's limit;
/// levels are counted by the value that is read next, not by braces.
#[test]
fn values_are_looked_for_down_to_level_64(rt: HostRuntime) -> Result<(), Fail> {
    for row in DEPTHS.iter() {
        let text = nested(rt.alloc(), row.0, row.1, row.2, row.3)?;
        let is_read = is_read(parse_avn(rt.alloc(), text.as_str()))?;
        assert!(rt; is_read == row.4, "{} {} {}", row.0, row.1, row.2);
    }
    Ok(())
}

/// Lists limits, how many braces nest, and whether they are read within the limit.
const LIMITS: [(usize, usize, bool); 8] = [
    (0, 1, true),
    (0, 2, false),
    (63, 64, true),
    (63, 65, false),
    (65, 66, true),
    (65, 67, false),
    (GREATEST_LEVEL_LIMIT, 101, true),
    (GREATEST_LEVEL_LIMIT, 102, false),
];

/// Values are read down to the level that a call names, and refused for depth beyond it.
#[test]
fn values_are_looked_for_down_to_the_limit(rt: HostRuntime) -> Result<(), Fail> {
    for row in LIMITS.iter() {
        let limit = row.0;
        assert!(rt; limit <= GREATEST_LEVEL_LIMIT);
        let text = nested(rt.alloc(), row.1, "{", "", "}")?;
        let mut scan = Scan::new(text.as_str());
        let is_read = is_read(parse_scan_within(rt.alloc(), &mut scan, limit))?;
        assert!(rt; is_read == row.2, "{} {}", limit, row.1);
    }
    Ok(())
}

/// A call that names no limit has `LEVEL_LIMIT`: 66 braces, whose innermost is at level 65, are
/// refused there and read within the next limit.
#[test]
fn the_limit_of_no_name_is_64(rt: HostRuntime) -> Result<(), Fail> {
    let text = nested(rt.alloc(), 66, "{", "", "}")?;
    let mut scan = Scan::new(text.as_str());
    assert!(rt; !is_read(parse_scan(rt.alloc(), &mut scan))?);
    let mut scan = Scan::new(text.as_str());
    assert!(rt; !is_read(parse_scan_within(rt.alloc(), &mut scan, LEVEL_LIMIT))?);
    let mut scan = Scan::new(text.as_str());
    assert!(rt; is_read(parse_scan_within(rt.alloc(), &mut scan, LEVEL_LIMIT + 1))?);
    Ok(())
}

/// Returns whether the value is an integer.
fn is_integer(value: &AvnValue) -> bool {
    matches!(value, AvnValue::Integer(_))
}

/// Returns whether the value is a list of so many integers.
fn is_list_of(value: &AvnValue, items: usize) -> bool {
    match value {
        AvnValue::SequenceOf(list) => list.len() == items && list.iter().all(is_integer),
        _ => false,
    }
}

/// Checks that a list of so many numbers is read with no more looks than these.
fn assert_looks(rt: &impl Abort, alloc: Global, items: usize, at_most: u128) -> Result<(), Fail> {
    let numbers = nested(alloc, items, "1 ", "", "")?;
    let text = format!(in alloc; "{{{numbers}}}")?;
    let mut scan = Scan::new(text.as_str());
    let value = parse_scan(alloc, &mut scan)?;
    let is_list = is_list_of(&value, items);
    let_go(value);
    assert!(rt; is_list);
    assert!(rt; scan.count() <= at_most);
    Ok(())
}

/// A scan is looked at no more than 16 times for each of its characters and for its end, in a list
/// of 10,000 and of 1,000,000 numbers, and in an empty text.
#[test]
fn looks_are_bounded(rt: HostRuntime) -> Result<(), Fail> {
    // Each item has two characters and the braces two: 16 times 2 n + 3.
    assert_looks(&rt, rt.alloc(), 10_000, 320_048)?;
    assert_looks(&rt, rt.alloc(), 1_000_000, 32_000_048)?;
    // The end of the text alone is looked at.
    let mut empty = Scan::new("");
    assert!(rt; is_refused(parse_scan(rt.alloc(), &mut empty)));
    assert!(rt; empty.count() <= 16);
    Ok(())
}
