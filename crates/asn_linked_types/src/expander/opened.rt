//! Holds the types that are open while a type is expanded.
ghost use Rattle.asn_linked_types.specs.expander.OpenTypes.{open_numbers};
ghost use Rattle.asn_linked_types.specs.declared.expander.limits.TheConstants.{OPEN_LIMIT};
ghost use Rattle.asn_linked_types.specs.Expansion.{place_of};
ghost use Rattle.std.specs.Prelude.{◌≡◌, ◌<◌, ◌≤◌, IfSome, length};

/// Holds the types that are open, the innermost first, as a chain of references on the stack.
#[derive(Drop)]
pub enum Opened<'a> {
    /// No type is open.
    Nothing,
    /// The type of this number is open within the others.
    Number(u32, &'a Opened<'a>),
}

/// Returns the place of the type of a number among those that are open, or `None` where it isn't
/// open. The innermost has place 0.
pub fn place_in(opened: &Opened<'_>, number: u32) -> Option<u32>
    requires few { length (open_numbers opened.now) ≤ OPEN_LIMIT }
    ensures found { result ≡ place_of (open_numbers opened.now) number }
    ensures below { IfSome result (λ place. place < length (open_numbers opened.now)) }
{
    match opened {
        Opened::Nothing => None,
        Opened::Number(first, outer) => {
            if *first == number {
                return Some(0);
            }
            match place_in(outer, number) {
                Some(place) => Some(place + 1),
                None => None,
            }
        }
    }
}
