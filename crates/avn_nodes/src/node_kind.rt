//! The kinds of nodes of a table.
ghost use Rattle.std.specs.Prelude.{◌≡◌};
ghost use Rattle.avn_nodes.specs.NodeKinds.{has_text, has_octets, has_arcs};

/// What a node of a table is: the kind of a value of the notation (X.680), or a field without one.
#[derive(Clone, Copy, Drop)]
pub enum NodeKind {
    /// A BOOLEAN, with its value.
    Boolean(bool),
    /// An integer, whose text is the node's.
    Integer,
    /// An OCTET STRING, whose octets are the node's.
    OctetString,
    /// A BIT STRING, whose octets and length are the node's.
    BitString,
    /// A NULL.
    Null,
    /// An OBJECT IDENTIFIER, whose arcs are the node's.
    Oid,
    /// A REAL, whose text is the node's.
    Real,
    /// An item of an ENUMERATED, whose identifier is the node's text.
    Enumerated,
    /// A SEQUENCE, whose fields are the nodes within it.
    Sequence,
    /// A SEQUENCE OF, whose elements are the nodes within it.
    SequenceOf,
    /// A CHOICE, whose alternative is the next node, which has the identifier as its name.
    Choice,
    /// A character string, whose text is the node's.
    CharString,
    /// A field without a value.
    Absent,
}

impl NodeKind {
    /// Tells whether a node of the kind has a text.
    #[inline(always)]
    pub fn has_text(self) -> bool
        ensures { result ≡ has_text self }
    {
        matches!(
            self,
            NodeKind::Integer | NodeKind::Real | NodeKind::Enumerated | NodeKind::CharString
        )
    }

    /// Tells whether a node of the kind has octets.
    #[inline(always)]
    pub fn has_octets(self) -> bool
        ensures { result ≡ has_octets self }
    {
        matches!(self, NodeKind::OctetString | NodeKind::BitString)
    }

    /// Tells whether a node of the kind has arcs.
    #[inline(always)]
    pub fn has_arcs(self) -> bool
        ensures { result ≡ has_arcs self }
    {
        matches!(self, NodeKind::Oid)
    }
}
