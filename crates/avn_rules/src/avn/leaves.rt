//! Adds values without parts to the frames of an encoder.
ghost use Rattle.asn_core.specs.Numbers.{signed};
ghost use Rattle.asn_slots.specs.Frames.{push};
ghost use Rattle.asn_traits.specs.Canonical.{avn_tree};
ghost use Rattle.asn_traits.specs.Leaf.{leaf_value};
ghost use Rattle.asn_traits.specs.Notation.{Notation};
ghost use Rattle.asn_traits.specs.Writable.{Writable};
ghost use Rattle.avn_grammar.specs.Tree.{integer};
ghost use Rattle.std.specs.Fmt.{signed_decimal};
ghost use Rattle.std.specs.Prelude.{◌≡◌, Some, true, OnOk};
ghost use Rattle.std.specs.Str.{is_utf8};

use asn_core::{OutOfMemory, WholeNumber};
use asn_traits::Leaf;
use avn_frames::NodeFrames;

/// Law: a text is UTF-8, as its type says.
fn is_text(text: &str)
    ensures { is_utf8 text.now ≡ true }
{}

/// Adds a whole number to the last frame; its text is made in `digits`. AVN has numbers of any
/// size, so every one can be written.
///
/// # Errors
///
/// `OutOfMemory` alone.
fn add_number(
    digits: &mut String,
    frames: &mut NodeFrames,
    number: WholeNumber,
) -> Result<(), OutOfMemory>
    ensures { OnOk result (frames.new ≡ push (Some (integer
        (signed_decimal (signed number.negative number.magnitude)))) frames.old) }
{
    digits.clear();
    write!(digits, "{number}")?;
    frames.add_integer(digits.as_str())
}

/// Adds what is written for a value without parts to the last frame. The digits of a number are put
/// into the text that is handed over for them.
///
/// # Errors
///
/// `OutOfMemory` alone.
#[inline(always)]
pub fn add_leaf(
    digits: &mut String,
    frames: &mut NodeFrames,
    leaf: Leaf<'_>,
) -> Result<(), OutOfMemory>
    ensures added { OnOk result (frames.new
        ≡ push (Some (avn_tree (leaf_value leaf.entry))) frames.old) }
    ensures writable { OnOk result (Writable Notation.avn (leaf_value leaf.entry)) }
{
    match leaf {
        Leaf::Null => frames.add_null(),
        Leaf::Boolean(flag) => frames.add_boolean(flag),
        Leaf::Number(number) => add_number(digits, frames, number),
        Leaf::Text(text) => {
            is_text(text);
            frames.add_text(text)
        }
        Leaf::OwnedText(text) => frames.add_string(text),
        Leaf::Item(name) => {
            is_text(name);
            frames.add_item(name)
        }
        Leaf::Octets(octets) => frames.add_octets(octets),
        Leaf::Arcs(arcs) => frames.add_arcs(arcs),
        Leaf::Bits(bits, _) => frames.add_bits(bits.octets(), bits.len()),
    }
}
