//! Sets the limits that links of types keep.
ghost use Rattle.std.specs.Prelude.{◌≡◌};

use asn_modules_reader::limits::NESTING_LIMIT;

/// Limits the names of types or of values that stand for one another in a row, as `A ::= B`, and
/// those after COMPONENTS OF. A name of a type that leads past more of them has no values, and so
/// has one that leads to itself.
pub const NAME_LIMIT: usize = asn_modules_rules::included::NAME_LIMIT;

/// Limits the bytes that the items of an ENUMERATED take (`asn_modules_rules`) which a component
/// with DEFAULT names: the shape of that component holds a copy of it. A DEFAULT of one with more
/// isn't understood. An ENUMERATED that the component states itself isn't limited.
pub const DEFAULT_ITEMS_LIMIT: usize = 16_384;

/// Limits the bytes of a string that a DEFAULT states or leads to, between its quotes: the shape of
/// its component holds a copy of it. A DEFAULT by one with more isn't understood.
pub const DEFAULT_STRING_LIMIT: usize = 1_024;

/// Limits the types that COMPONENTS OF includes in those of all texts, with what stands within: no
/// more than these are let through by `asn_modules_rules`.
pub const INCLUDED_LIMIT: usize = asn_modules_rules::included::INCLUDED_SIZE_LIMIT
    / asn_modules_rules::included::TYPE_SIZE;

/// Limits the levels to which types, and names after COMPONENTS OF, nest: those of a text, below
/// them those of what COMPONENTS OF includes, and below them those of a type with parameters.
pub const LEVEL_LIMIT: usize = NESTING_LIMIT
    + asn_modules_rules::included::INCLUDED_LEVEL_LIMIT
    + NESTING_LIMIT;

/// The limits are these numbers.
pub fn stated_limits()
    ensures names { NAME_LIMIT ≡ 64 }
    ensures items { DEFAULT_ITEMS_LIMIT ≡ 16384 }
    ensures bytes { DEFAULT_STRING_LIMIT ≡ 1024 }
    ensures types { INCLUDED_LIMIT ≡ 65536 }
    ensures levels { LEVEL_LIMIT ≡ 320 }
{}
