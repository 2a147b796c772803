//! Places in a text.

ghost use Rattle.std.specs.Prelude.{◌≡◌, ◌≤◌, ◌==◌, length, count_by, take_while, reverse, not};
ghost use Rattle.spf_lex.specs.Place.{place_of};

use spf_base::Place;

/// How many line feeds there are.
fn line_feeds(bytes: &[u8]) -> usize
    ensures { result ≡ count_by (λ b. b == 10) bytes.now }
{
    bytes.iter().filter(|byte| **byte == b'\n').count()
}

/// How many bytes stand behind the last line feed.
fn last_line_len(bytes: &[u8]) -> usize
    ensures { result ≡ length (take_while (λ b. not (b == 10)) (reverse bytes.now)) }
{
    bytes
        .iter()
        .rev()
        .take_while(|byte| **byte != b'\n')
        .count()
}

/// The place of a byte, or of the end. Linear in the text before it.
pub(crate) fn place_at(text: &[u8], at: usize) -> Place
    requires inside { at ≤ length text.now }
    requires short { length text.now ≤ 67108864 }
    ensures { result ≡ place_of text.now at }
{
    let before = &text[..at];
    Place {
        line: 1 + line_feeds(before) as u32,
        column: 1 + last_line_len(before) as u32,
    }
}
