//! Holds the names that are open while a type is expanded.
ghost use Rattle.asn_model.specs.Shape.{place_named};
ghost use Rattle.asn_expansion.specs.OpenNames.{open_names};
ghost use Rattle.std.specs.Prelude.{◌≡◌, ◌<◌, ◌≤◌, IfSome, length};
ghost use Rattle.std.specs.Str.{bytes_eq};

/// Holds the names that are open, the innermost first, as a chain of references on the stack.
#[derive(Drop)]
pub enum Opened<'a> {
    /// No name is open.
    Nothing,
    /// This name is open within the others.
    Name(&'a str, &'a Opened<'a>),
}

/// Returns the place of the name among those that are open, or `None` where it isn't open. The
/// innermost has place 0.
pub fn place_in(opened: &Opened<'_>, name: &str) -> Option<u32>
    requires few { length (open_names opened.now) ≤ 64 }
    ensures found { result ≡ place_named bytes_eq (open_names opened.now) name.now }
    ensures below { IfSome result (λ place. place < length (open_names opened.now)) }
{
    match opened {
        Opened::Nothing => None,
        Opened::Name(first, outer) => {
            if name == *first {
                return Some(0);
            }
            match place_in(outer, name) {
                Some(place) => Some(place + 1),
                None => None,
            }
        }
    }
}
