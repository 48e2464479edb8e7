//! Says which assignments are listed.

/// Names the assignments that an index lists: those of types, of values (X.680, section 16), or of
/// types with parameters (X.683).
#[derive(Clone, Copy, Drop, PartialEq, Eq)]
pub enum Sort {
    /// Is the assignments of types.
    Types,
    /// Is the assignments of values.
    Values,
    /// Is the assignments of types with parameters.
    Templates,
}
