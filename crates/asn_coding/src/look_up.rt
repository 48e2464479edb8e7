//! Finds names in lists of names. The cost of a look-up is the length of the list.
ghost use Rattle.asn_model.specs.Shape.{place_named};
ghost use Rattle.asn_model.specs.Tree.{same_identifier};
ghost use Rattle.asn_names.specs.Rows.{row_names};
ghost use Rattle.std.specs.Prelude.{◌≡◌, ◌<◌, IfSome, length};
ghost use Rattle.std.specs.Str.{bytes_eq};

use asn_names::NameList;

/// Returns the first place of the field of this name, or `None` where no field has the name.
pub fn place_of_field<N: NameList>(names: &N, name: &str) -> Option<usize>
    ensures is { result ≡ place_named bytes_eq (row_names (N.rows names.now)) name.now }
    ensures below { IfSome result (λ k. k < length (N.rows names.now)) }
{
    for place in 0..names.count() {
        if name == names.name(place) {
            return Some(place);
        }
    }
    None
}

/// Returns the first place of the identifier, or `None` where it is none of the list. The case of
/// ASCII letters makes no difference: alternatives are distinguished without it.
pub fn place_of<N: NameList>(names: &N, identifier: &str) -> Option<usize>
    ensures is { result ≡ place_named same_identifier (row_names (N.rows names.now))
        identifier.now }
    ensures below { IfSome result (λ k. k < length (N.rows names.now)) }
{
    for place in 0..names.count() {
        if identifier.eq_ignore_ascii_case(names.name(place)) {
            return Some(place);
        }
    }
    None
}
