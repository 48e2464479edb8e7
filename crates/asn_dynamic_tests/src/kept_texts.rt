//! What is returned of texts that are cut.
use asn_core::Codec;
use asn_filter::{FilterFault, Kept, LineFault, keep};
use asn_growth::{Reason, few_nodes};
use asn_samples::shape_of;
use std::alloc::Global;
use std::process::Abort;
use std::test::Fail;

/// Cuts a text of the newer sample type, where both names are of one.
fn cut(
    alloc: Global,
    from: Codec,
    names: (&str, &str),
    text: &str,
) -> Result<Option<Result<Kept, FilterFault>>, Fail> {
    let (old, new) = names;
    let (Some(old), Some(new)) = (shape_of(alloc, old)?, shape_of(alloc, new)?) else {
        return Ok(None);
    };
    if few_nodes(&old) {
        Ok(Some(keep(alloc, from, &old, &new, text)))
    } else {
        Ok(None)
    }
}

/// Returns the number of the first line that is refused in writing.
fn unwritten(refused: &[(usize, LineFault)]) -> Option<usize> {
    let (number, fault) = refused.first()?;
    matches!(fault, LineFault::Write(_)).then_some(*number)
}

/// The fault states the first node that differs, and why.
#[test]
fn no_later_version(rt: HostRuntime) -> Result<(), Fail> {
    let alloc = rt.alloc();
    let outcome = cut(alloc, Codec::Jer, ("NewReport", "OldReport"), "{\n")?;
    let fault = FilterFault::NotGrown {
        place: 0,
        reason: Reason::Additions,
    };
    assert!(rt; matches!(outcome, Some(Err(other)) if other == fault));
    let text = format!(in alloc; "{fault}")?;
    assert_eq!(rt; text.as_str(), "shapes differ at 0");
    Ok(())
}

/// A value that JSON has no text for is refused by the number of its line.
#[test]
fn line_that_is_not_written(rt: HostRuntime) -> Result<(), Fail> {
    let text = "1\n18446744073709551616\n2";
    match cut(rt.alloc(), Codec::Avn, ("Integer", "Integer"), text)? {
        Some(Ok(kept)) => {
            assert_eq!(rt; kept.text.as_str(), "1\n2\n");
            assert_eq!(rt; unwritten(&kept.refused), Some(2));
        }
        _ => assert!(rt; false, "no lines"),
    }
    Ok(())
}

/// Under a codec that is no text notation each line is refused in reading.
#[test]
fn no_text_notation(rt: HostRuntime) -> Result<(), Fail> {
    match cut(rt.alloc(), Codec::Ber, ("u8", "u8"), "1\n2\n")? {
        Some(Ok(kept)) => {
            assert!(rt; kept.text.is_empty());
            assert_eq!(rt; kept.refused.len(), 2);
            assert_eq!(rt; unwritten(&kept.refused), None);
        }
        _ => assert!(rt; false, "no lines"),
    }
    Ok(())
}
