//! What stands between tokens: blanks and comments.

ghost use Rattle.std.specs.Prelude.{◌≡◌, ◌≢◌, ◌↔◌, IsTrue};
ghost use Rattle.spf_lex.specs.Front.{IsLengthOf, IsRun};
ghost use Rattle.spf_lex.specs.Tokens.{IsBlank, IsGap};

fn is_blank(byte: u8) -> bool
    ensures { IsTrue result ↔ IsBlank byte }
{
    matches!(byte, b' ' | b'\t' | b'\r' | b'\n')
}

/// How many bytes stand before the next line feed or the end.
fn line_len(text: &[u8]) -> usize
    ensures { IsRun (λ b. b ≢ 10) text.now result }
{
    text.iter()
        .position(|byte| *byte == b'\n')
        .unwrap_or(text.len())
}

/// The length of the blank or the comment at the front of the text, if one stands there. Linear in it.
pub(crate) fn gap_len(text: &[u8]) -> Option<usize>
    ensures { IsLengthOf (IsGap text.now) result }
{
    match text {
        [b'#', ..] => Some(line_len(text)),
        [first, ..] if is_blank(*first) => Some(1),
        _ => None,
    }
}
