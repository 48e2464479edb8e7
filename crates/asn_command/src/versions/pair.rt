//! Defines an older and a newer version of a type.
ghost use Rattle.asn_growth.specs.Differences.{differences_of};
ghost use Rattle.asn_growth.specs.Grows.{Grows};
ghost use Rattle.asn_model.specs.Readable.{is_readable};
ghost use Rattle.asn_model.specs.ShapeView.{shape_view};
ghost use Rattle.std.specs.Prelude.{◌≡◌, length, true};

use asn_model::Shape;

/// Holds an older and a newer version of a type. In each of them every type that it names stands in
/// the place of its name.
#[derive(Drop)]
pub struct Versions {
    /// Is the older version.
    pub(crate) older: Shape,
    /// Is the newer version.
    pub(crate) newer: Shape,
    /// Values can be read and written by the older version.
    ghost readable_older: { is_readable (shape_view older) ≡ true },
    /// And by the newer one.
    ghost readable_newer: { is_readable (shape_view newer) ≡ true },
    /// The newer one is a later version of the older one: no place of that one differs.
    ghost grown: { length (differences_of (shape_view older) (shape_view newer) 0) ≡ 0 },
}

impl Versions {
    /// Returns the pair of these versions.
    #[tactic(auto, using(crate::proofs::versions::Grown::none_differs))]
    pub(crate) fn new(older: Shape, newer: Shape) -> Versions
        requires readable_older { is_readable (shape_view older) ≡ true }
        requires readable_newer { is_readable (shape_view newer) ≡ true }
        requires grown { Grows (shape_view older) (shape_view newer) }
        ensures older { result.older ≡ older }
        ensures newer { result.newer ≡ newer }
    {
        Versions { older, newer }
    }
}
