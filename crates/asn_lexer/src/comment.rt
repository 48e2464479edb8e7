//! Passes over comments.
ghost use Rattle.asn_lexer.specs.Blanks.{ends_line};
ghost use Rattle.asn_lexer.specs.Blanks.{past_line_comment, past_block_comment};
ghost use Rattle.std.specs.Option.{option_map};
ghost use Rattle.std.specs.Prelude.{◌≡◌};

/// Returns whether the byte ends a line.
fn ends_line(byte: u8) -> bool
    ensures { result ≡ ends_line byte }
{
    matches!(byte, 10..=13)
}

/// Returns what follows the comment whose `--` was read.
#[tactic(auto, using(crate::proofs::Comments::line_steps))]
pub fn past_line_comment(text: &[u8]) -> &[u8]
    ensures { result.now ≡ past_line_comment text.now }
{
    let mut rest = text;
    'chars: loop {
        if let Some(after) = rest.strip_prefix(b"--".as_slice()) {
            return after;
        }
        match rest {
            [first, after @ ..] if !ends_line(*first) => rest = after,
            _ => return rest,
        }
    }
}

/// Returns what follows the comment whose `/*` was read, or `None` where it has no end.
#[tactic(auto, using(crate::proofs::Comments::block_steps))]
pub fn past_block_comment(text: &[u8]) -> Option<&[u8]>
    ensures { option_map (λ rest. rest.now) result ≡ past_block_comment 0 text.now }
{
    let mut inner: usize = 0;
    let mut rest = text;
    'chars: loop {
        if let Some(after) = rest.strip_prefix(b"*/".as_slice()) {
            if inner == 0 {
                return Some(after);
            }
            inner -= 1;
            rest = after;
        } else if let Some(after) = rest.strip_prefix(b"/*".as_slice()) {
            inner += 1;
            rest = after;
        } else {
            match rest {
                [_, after @ ..] => rest = after,
                [] => return None,
            }
        }
    }
}
