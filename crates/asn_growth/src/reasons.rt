//! Defines what a comparison of two shapes answers.

/// States why two shapes differ at a place. The first of these that differs there is the reason.
#[derive(Clone, Copy, Debug, PartialEq, Eq)]
pub enum Reason {
    /// The kinds of the two differ. SEQUENCE and SET are two kinds.
    Kind,
    /// The bounds, width, fixed size, alphabet or number of a `Back` differ.
    Numbers,
    /// The names, identifiers or items of the root differ.
    Names,
    /// The tags of the root differ.
    Tags,
    /// Which fields of the root may be absent differs, or what then stands for them.
    Presence,
    /// One of the two alone has an extension marker.
    Extensible,
    /// The extension additions of the newer one don't begin with the names, tags and presence of
    /// those of the older one.
    Additions,
}

/// States whether a shape is a later version of another.
#[derive(Clone, Copy, Debug, PartialEq, Eq)]
pub enum Growth {
    /// It is a later version of it, or the same.
    Grows,
    /// It is none.
    Differs {
        /// Holds the number of the first node of the older shape that differs. The root is 0, and
        /// a node comes before its parts: fields and then added ones, alternatives and then added
        /// ones, the element, the entry, or the body of a `Loop`.
        place: usize,
        /// States what differs there.
        reason: Reason,
    },
}
