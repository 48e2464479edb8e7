//! Sets the limits that COMPONENTS OF keeps.
ghost use Rattle.std.specs.Prelude.{◌≡◌};

/// Limits the names of types that are followed in a row: those after COMPONENTS OF, and those that
/// stand for one another, as `A ::= B`.
pub const NAME_LIMIT: usize = 64;

/// Is what a type counts besides what stands in it, in bytes. So does a name after COMPONENTS OF.
pub const TYPE_SIZE: usize = 64;

/// Is what a type with actual parameters counts besides: no less than the type with parameters that
/// it names, which stands in its place.
pub const INSTANCE_SIZE: usize = 16_384;

/// Limits the bytes that COMPONENTS OF includes in the types of all texts: about what is gone over
/// and copied. 64 types, of which each includes the next one twice, would include 2^64.
pub const INCLUDED_SIZE_LIMIT: usize = 4_194_304;

/// Limits the levels to which the types that COMPONENTS OF includes nest, with the names after it.
/// A text alone has at most 64, but types that include others have those of each, and every level
/// takes room on the stack.
pub const INCLUDED_LEVEL_LIMIT: usize = 192;

/// The limits are these numbers, and types and types with actual parameters count these bytes.
pub fn stated_limits()
    ensures names { NAME_LIMIT ≡ 64 }
    ensures types { TYPE_SIZE ≡ 64 }
    ensures instances { INSTANCE_SIZE ≡ 16384 }
    ensures bytes { INCLUDED_SIZE_LIMIT ≡ 4194304 }
    ensures levels { INCLUDED_LEVEL_LIMIT ≡ 192 }
{}
