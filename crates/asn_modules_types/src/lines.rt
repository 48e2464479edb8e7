//! Joins the lines of strings.
ghost use Rattle.asn_lexer.specs.Blanks.{ends_line};
ghost use Rattle.asn_modules_types.specs.Strings.{is_spacing, joined};
ghost use Rattle.std.specs.Prelude.{◌≡◌, ℕ, IfOk, List, OnOk, ◌∷◌, false};

use std::alloc::{AllocError, Global};

/// Returns whether the byte ends a line: it is a line feed, a vertical tab, a form feed or a
/// carriage return.
fn ends_line(byte: u8) -> bool
    ensures { result ≡ ends_line byte }
{
    byte >= 10 && byte <= 13
}

/// Returns whether the byte is a tab or a space.
fn is_spacing(byte: u8) -> bool
    ensures { result ≡ is_spacing byte }
{
    byte == b'\t' || byte == b' '
}

/// Holds the bytes of a string so far, with its lines joined.
#[derive(Drop)]
struct Joined {
    /// Lists the bytes.
    bytes: Vec<u8>,
    /// Counts those that stay. What follows them is spacing, and is left out if a line ends next.
    firm: usize,
    /// States that a line ended, and that spacing alone came after it.
    begun: bool,
}

impl Joined {
    ghost use Rattle.asn_modules_types.specs.Joining.{IsFirm, whole};

    /// Takes one more byte.
    ///
    /// # Errors
    ///
    /// Where memory runs out.
    fn take(&mut self, byte: u8) -> Result<(), AllocError>
        requires firm { IsFirm self.old }
        ensures firm { OnOk result (IsFirm self.new) }
        // Whatever follows, the whole stays the same.
        ensures whole { OnOk result ((u : List ℕ) → whole self.new u ≡ whole self.old (byte ∷ u)) }
    {
        if ends_line(byte) {
            self.bytes.truncate(self.firm);
            self.begun = true;
            return Ok(());
        }
        if is_spacing(byte) {
            if !self.begun {
                self.bytes.push(byte)?;
            }
            return Ok(());
        }
        self.bytes.push(byte)?;
        self.firm = self.bytes.len();
        self.begun = false;
        Ok(())
    }
}

/// Returns the bytes without the ends of lines, and without the spacing before and after each.
///
/// # Errors
///
/// Where memory runs out.
pub fn join_lines(alloc: Global, bytes: &[u8]) -> Result<Vec<u8>, AllocError>
    ensures { IfOk result (λ v. v.items ≡ joined false bytes.now) }
{
    let mut joined = Joined {
        bytes: Vec::new(alloc),
        firm: 0,
        begun: false,
    };
    for byte in bytes {
        joined.take(*byte)?;
    }
    Ok(joined.bytes)
}
