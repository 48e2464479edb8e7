//! Prints the ways in which the components of a value break a constraint of its type.
use crate::errors::checks::{MEMORY, assert_printed, message};
use asn_core::Codec;
use asn_fault::{DecodeError, DecodeErrorKind, InnerSubtypeConstraintError};

/// Names the components that a constraint is on.
const NAMES: &[&str] = &["a", "b"];

/// Lists the texts of the errors that `error` returns, by their places.
const TEXTS: [&str; 7] = [
    "Invalid component combination in T.x: d",
    "Missing required components in T.x: the following must be present:",
    "Mutually exclusive components present in T.x: a, b",
    "Invalid value for component T.x in y: m",
    "Invalid variant for component U in T.x: m",
    "Invalid size constraint for component y in T.x: m",
    "Component that should be absent is present in T.x: y",
];

/// Returns the error at this place of `TEXTS`, with `text` where it has a text.
fn error(text: String, place: usize) -> InnerSubtypeConstraintError {
    let component_path = "T.x";
    let component_name = "y";
    match place {
        0 => InnerSubtypeConstraintError::SubtypeConstraintViolation {
            component_path,
            details: "d",
        },
        1 => InnerSubtypeConstraintError::MissingRequiredComponent {
            component_path,
            components: NAMES,
        },
        2 => InnerSubtypeConstraintError::MutuallyExclusiveViolation {
            component_path,
            components: NAMES,
        },
        3 => InnerSubtypeConstraintError::InvalidComponentValue {
            component_path,
            component_name,
            details: text,
        },
        4 => InnerSubtypeConstraintError::InvalidComponentVariant {
            component_path,
            component_type: "U",
            details: text,
        },
        5 => InnerSubtypeConstraintError::InvalidComponentSize {
            component_path,
            component_name,
            details: text,
        },
        _ => InnerSubtypeConstraintError::UnexpectedComponentPresent {
            component_path,
            component_name,
        },
    }
}

/// Each way has its text.
#[test]
fn each_way_has_its_text(rt: HostRuntime) {
    for (place, &want) in TEXTS.iter().enumerate() {
        let error = error(message(&rt, rt.alloc()), place);
        assert_printed(&rt, rt.alloc(), error, want);
    }
}

/// An error of decoding prints the way in which a constraint is broken, and a way prints the error
/// of the contents of a string.
#[test]
fn contents_that_are_not_decoded(rt: HostRuntime) {
    let alloc = rt.alloc();
    let eof = DecodeError::from_kind(DecodeErrorKind::Eof, Codec::Ber);
    let reason = InnerSubtypeConstraintError::InvalidInnerContaining {
        expected: "T",
        err: Box::new(alloc, eof).expect(&rt, MEMORY),
    };
    let error = DecodeError::inner_subtype_constraint_not_satisfied(reason, Codec::Oer);
    assert_printed(
        &rt,
        alloc,
        error,
        "Inner subtype constraint not satisfied: CONTAINING does not contain the expected \
         component T: Unexpected EOF when decoding (Codec: BER) (Codec: OER)",
    );
}
