//! Parts a text into lines.
ghost use Rattle.asn_filter.specs.Lines.{text_lines};
ghost use Rattle.std.specs.Prelude.{◌≡◌, ◌<◌, ◌∷◌, [], length, IfSome, MatchOption};

/// Returns the first line of a text and what stands after it, or `None` where nothing is left.
pub fn next_line(text: &str) -> Option<(&str, &str)>
    ensures lines { MatchOption result (text_lines text.now ≡ [])
        (λ parts. text_lines text.now ≡ parts.0.now ∷ text_lines parts.1.now) }
    ensures shorter { IfSome result (λ parts. length parts.1.now < length text.now) }
{
    if text.is_empty() {
        return None;
    }
    match text.split_once('\n') {
        Some(parts) => Some(parts),
        None => Some((text, "")),
    }
}
