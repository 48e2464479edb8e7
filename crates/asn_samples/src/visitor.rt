//! Defines computations that are run at the Rust type of a sample type. A `Sample` is a value, and
//! a type is none: so a caller hands `Sample::accept` a visitor that is generic in the type.
ghost use Rattle.asn_traits.specs.Shape.{Shape as AbstractShape};

use asn_traits::{Decode, Encode};

/// Does a computation at a Rust type, which `Sample::accept` runs at the type of a sample.
///
/// `State` is what the computation changes, such as a sink that it writes to.
pub trait SampleVisitor<State>: Sized {
    /// Holds what the computation returns.
    type Output;

    // What is known of the result: of the visitor, the type's shape, the state before and after,
    // and the output.
    ghost visits: { Self → AbstractShape → State → State → Self.Output → Type 0 };

    /// Runs the computation at the type T. It consumes the visitor.
    fn visit<T: Encode + Decode>(self, state: &mut State) -> Self::Output
        ensures { visits self T.shape_of state.old state.new result };
}
