//! Reads bit strings from nodes.
ghost use Rattle.asn_core.specs.BitStrings.{all_bits};
ghost use Rattle.asn_model.specs.declared.leaves.LeafKind.TheVariants.{Bits as BitsKind};
ghost use Rattle.avn_rules.specs.LeafAnswer.{LeafAnswer};
ghost use Rattle.avn_rules.specs.Pending.{IsPresent, value_at};
ghost use Rattle.std.specs.Prelude.{◌≡◌, IfSome};

use super::leaf_nodes::{octets_at, other_kind};
use asn_core::{Bits, Codec};
use asn_fault::DecodeError;
use asn_traits::{LeafKind, OwnedLeaf};
use avn_value::{NodeKind, NodeTable};
use std::alloc::Global;

/// Returns the bits that stand at a node: those of a bit string, and all bits of an octet string.
///
/// # Errors
///
/// `AvnTypeMismatch` where neither stands there; `OutOfMemory`, also where the bits of the octets
/// are more than a `usize` can count.
pub fn bits_of_node(
    alloc: Global,
    table: &NodeTable,
    node: usize,
    size: Option<usize>,
) -> Result<OwnedLeaf, DecodeError>
    requires { IsPresent table.now node }
    ensures { LeafAnswer (BitsKind size) (value_at table.now node) result }
{
    match table.kind(node) {
        NodeKind::BitString => {
            let octets = octets_at(alloc, table, node)?;
            let bits = Bits::from_first_bits(octets, table.bit_length(node));
            Ok(OwnedLeaf::Bits(bits, size))
        }
        NodeKind::OctetString => match whole_bits(alloc, table.octets(node)) {
            Some(bits) => Ok(OwnedLeaf::Bits(bits, size)),
            None => Err(DecodeError::out_of_memory(Codec::Avn)),
        },
        _ => Err(other_kind(alloc, table, node, LeafKind::Bits(size))),
    }
}

/// Returns all bits of the octets, or `None` where memory runs out or they are more than a `usize`
/// can count.
fn whole_bits(alloc: Global, octets: &[u8]) -> Option<Bits>
    ensures { IfSome result (λ bits. bits ≡ all_bits octets.now) }
{
    let size = octets.len().checked_mul(8)?;
    let Ok(octets) = Vec::from_slice(alloc, octets) else {
        return None;
    };
    Some(Bits::from_first_bits(octets, size))
}
