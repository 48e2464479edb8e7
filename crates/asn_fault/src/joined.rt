//! Writes the texts of several things, one after the other.
ghost use Rattle.asn_fault.specs.Joined.{joined, listed};
ghost use Rattle.std.specs.Fmt.{WritesOnOk};
ghost use Rattle.std.specs.Prelude.{◌≡◌, ℕ, List, Some, decimal, refl};

use std::fmt;

/// Something that stands in a list which an error prints.
pub trait Listed: fmt::Display {
    // What it prints.
    ghost text: { Self → List ℕ };

    // It prints its text.
    ghost prints: { (x : Self) → Self.output x ≡ Some (text x) };
}

/// Prints an arc of an object identifier in decimal.
impl Listed for u32 {
    ghost text = { decimal };

    ghost prints = { λ n. refl };
}

/// Prints the name of a component as it is.
impl Listed for &'static str {
    ghost text = { λ name. name.now };

    ghost prints = { λ name. refl };
}

/// Writes the elements, with a comma and a space between each two.
pub fn write_joined<T: Listed, W: fmt::Write>(items: &[T], f: &mut fmt::Formatter<W>) -> fmt::Result
    ensures { WritesOnOk W.write_str_gives f.old result (joined T.text items.now) f.new }
{
    match items {
        [] => Ok(()),
        [first, rest @ ..] => {
            first.fmt(f)?;
            write_listed(rest, f)
        }
    }
}

/// Writes the elements, each after a comma and a space.
fn write_listed<T: Listed, W: fmt::Write>(items: &[T], f: &mut fmt::Formatter<W>) -> fmt::Result
    ensures { WritesOnOk W.write_str_gives f.old result (listed T.text items.now) f.new }
{
    for item in items {
        write!(f, ", {item}")?;
    }
    Ok(())
}
