//! Parts bytes at their first line feed.
ghost use Rattle.std.specs.Prelude.{◌≡◌, ◌<◌, ◌∷◌, ◌++◌, length, position, IfSome, MatchOption};
ghost use Rattle.asn_lines.specs.Lines.{is_feed};
ghost use Rattle.asn_lines.specs.Splits.{HasNoFeed, IsFirstLine};

/// Returns the place of the first line feed, or `None` where there is none.
fn first_feed(bytes: &[u8]) -> Option<usize>
    ensures { result ≡ position is_feed bytes.now }
{
    bytes.iter().position(|byte| *byte == b'\n')
}

/// Returns what stands before the first line feed and what stands after it, or `None` where there
/// is none.
pub fn split_line(bytes: &[u8]) -> Option<(&[u8], &[u8])>
    ensures parts { MatchOption result (HasNoFeed bytes.now)
        (λ parts. IsFirstLine bytes.now parts.0.now parts.1.now) }
    ensures shorter { IfSome result (λ parts. length parts.1.now < length bytes.now) }
{
    let at = first_feed(bytes)?;
    Some((&bytes[..at], &bytes[at + 1..]))
}
