//! Ties the type parameters of closures to the error of decoding.
//!
//! The checker does not cover a closure whose bound names a type that holds a `&'static str`, as
//! `DecodeError` does. So the bound names a type parameter, and these traits tie it to the type.
ghost use Rattle.asn_fault.specs.declared.decode.DecodeErrorKind.{DecodeErrorKind};
ghost use Rattle.std.specs.Prelude.{◌≡◌};
ghost use Rattle.asn_fault.specs.Failure.{Failure, failure_of};

use crate::{DecodeError, DecodeErrorKind};

/// The error that the closure of `decode_sequence` returns: it states where decoding stopped and
/// why. `DecodeError` alone implements it, and is inferred at each call.
pub trait Refusal: Sized + Drop {
    // The fields that lead to the place, and what is wrong there.
    ghost failure: { Self → Failure };

    /// Returns the same error, as the type that the closure has.
    fn of(error: DecodeError) -> Self
        ensures { failure result ≡ failure_of error };
}

/// Passes the error on as it is.
impl Refusal for DecodeError {
    ghost failure = { failure_of };

    fn of(error: DecodeError) -> DecodeError {
        error
    }
}

/// The argument of a predicate on root causes. `DecodeErrorKind` alone implements it, and is
/// inferred where the closure's argument is annotated.
pub trait RootCause: Sized {
    // The kind that it is.
    ghost kind: { Self → DecodeErrorKind };

    /// Returns the same kind, as the type that the closure takes.
    fn of(cause: &DecodeErrorKind) -> &Self
        ensures { kind result.now ≡ cause.now };
}

/// Passes the kind on as it is.
impl RootCause for DecodeErrorKind {
    ghost kind = { λ kind. kind };

    fn of(cause: &DecodeErrorKind) -> &DecodeErrorKind {
        cause
    }
}
