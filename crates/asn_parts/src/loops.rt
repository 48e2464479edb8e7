//! Holds the loops around a part of a type, as a chain of references on the stack.
ghost use Rattle.asn_parts.specs.Chain.{bodies_of};
ghost use Rattle.std.specs.Prelude.{◌≡◌, drop};

/// Holds the loops around a part of a type, the innermost first. `P` is a handle of a part.
#[derive(Drop)]
pub enum Loops<'l, P> {
    /// No loop is around.
    Outermost,
    /// The part stands in the body of a loop.
    Within {
        /// Is what the loop holds.
        body: P,
        /// Holds the loops around that loop.
        outer: &'l Loops<'l, P>,
    },
}

/// Returns the loops from the one of this number on, where 0 is the innermost.
pub fn from_loop<'l, P>(loops: &'l Loops<'l, P>, number: u32) -> &'l Loops<'l, P>
    ensures { bodies_of result.now ≡ drop number (bodies_of loops.now) }
{
    match loops {
        Loops::Outermost => loops,
        Loops::Within { outer, .. } => {
            if number == 0 {
                loops
            } else {
                from_loop(outer, number - 1)
            }
        }
    }
}
