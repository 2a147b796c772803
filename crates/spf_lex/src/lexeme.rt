//! Words, numbers and symbols, and which of them stands at the front of a text.

ghost use Rattle.std.specs.Prelude.{◌≡◌, ◌≤◌, ◌+◌, ◌^◌, ◌↔◌, [], ◌∷◌, length, min, take, All, Contains, IsTrue, SomeIff};
ghost use Rattle.spf_base.specs.Word.{IsDigit, IsLetter, IsWordByte};
ghost use Rattle.spf_lex.specs.Front.{BeginsWith, IsLengthOf, IsRun};
ghost use Rattle.spf_lex.specs.Found.{IsTokenAt};
ghost use Rattle.spf_lex.specs.Lexeme.{IsNumber, IsToken, symbols, value_of};

/// What a token is: a word, a number with its value, or a symbol.
#[derive(Clone, Copy)]
pub enum Lexeme {
    Word,
    Number(u64),
    Symbol,
}

/// A token at the front of a text: how many bytes it has, and what it is.
#[derive(Clone, Copy)]
pub struct Found {
    pub len: usize,
    pub lexeme: Lexeme,
}

/// How many bytes a word has at most, to be a token.
const LONGEST_WORD: usize = 32;

/// How large a number is at most, to be a token.
const LARGEST_NUMBER: u64 = 1 << 63;

fn is_letter(byte: u8) -> bool
    ensures { IsTrue result ↔ IsLetter byte }
{
    matches!(byte, b'a'..=b'z' | b'A'..=b'Z')
}

fn is_digit(byte: u8) -> bool
    ensures { IsTrue result ↔ IsDigit byte }
{
    matches!(byte, b'0'..=b'9')
}

fn is_word_byte(byte: u8) -> bool
    ensures { IsTrue result ↔ IsWordByte byte }
{
    is_letter(byte) || is_digit(byte) || byte == b'_'
}

/// How many bytes at the front may stand in a word.
fn word_run(text: &[u8]) -> usize
    ensures { IsRun IsWordByte text.now result }
{
    text.iter()
        .position(|byte| !is_word_byte(*byte))
        .unwrap_or(text.len())
}

/// How many bytes at the front are digits.
fn digit_run(text: &[u8]) -> usize
    ensures { IsRun IsDigit text.now result }
{
    text.iter()
        .position(|byte| !is_digit(*byte))
        .unwrap_or(text.len())
}

/// Whether two bytes are a symbol.
fn is_pair(first: u8, second: u8) -> bool
    ensures { IsTrue result ↔ Contains symbols (first ∷ second ∷ []) }
{
    match second {
        b'>' => first == b'-',
        b'.' => first == b'.',
        b'=' => b"+=!<>".contains(&first),
        _ => false,
    }
}

/// Whether one byte is a symbol.
fn is_mark(byte: u8) -> bool
    ensures { IsTrue result ↔ Contains symbols (byte ∷ []) }
{
    b"{}[](),;:=+-*<>|".contains(&byte)
}

/// The value of the digits, or one more than the largest number where they pass it.
fn capped_value(digits: &[u8]) -> u64
    requires { All IsDigit digits.now }
    ensures { result ≡ min (value_of digits.now) (2 ^ 63 + 1) }
{
    let mut value: u64 = 0;
    for digit in digits {
        let more = value
            .saturating_mul(10)
            .saturating_add(u64::from(*digit - b'0'));
        value = more.min(LARGEST_NUMBER + 1);
    }
    value
}

/// The value of a token that is a number, and `None` for any other text. Linear in the text.
pub fn number(text: &[u8]) -> Option<u64>
    ensures { SomeIff result (IsNumber text.now × (value_of text.now ≤ 2 ^ 63)) (value_of text.now) }
{
    if text.is_empty() || digit_run(text) < text.len() {
        return None;
    }
    let value = capped_value(text);
    (value <= LARGEST_NUMBER).then_some(value)
}

/// The token at the front of the text, which begins with a letter.
fn word_token(text: &[u8]) -> Option<Found>
    requires { BeginsWith IsLetter text.now }
    ensures { IsTokenAt text.now result }
{
    let len = word_run(text);
    (len <= LONGEST_WORD).then_some(Found {
        len,
        lexeme: Lexeme::Word,
    })
}

/// The token at the front of the text, which begins with a digit.
fn number_token(text: &[u8]) -> Option<Found>
    requires { BeginsWith IsDigit text.now }
    ensures { IsTokenAt text.now result }
{
    let len = digit_run(text);
    let value = number(&text[..len])?;
    Some(Found {
        len,
        lexeme: Lexeme::Number(value),
    })
}

/// Whether the text begins with a symbol of two bytes.
fn begins_pair(text: &[u8]) -> bool
    ensures { IsTrue result ↔ ((2 ≤ length text.now) × Contains symbols (take 2 text.now)) }
{
    match text {
        [first, second, ..] => is_pair(*first, *second),
        _ => false,
    }
}

/// Whether the text begins with a symbol of one byte.
fn begins_mark(text: &[u8]) -> bool
    ensures { IsTrue result ↔ ((1 ≤ length text.now) × Contains symbols (take 1 text.now)) }
{
    match text {
        [first, ..] => is_mark(*first),
        [] => false,
    }
}

/// The length of the symbol at the front of the text, which begins with neither a letter nor a digit.
fn symbol_len(text: &[u8]) -> Option<usize>
    requires word { ¬ BeginsWith IsLetter text.now }
    requires number { ¬ BeginsWith IsDigit text.now }
    ensures { IsLengthOf (IsToken text.now) result }
{
    if begins_pair(text) {
        Some(2)
    } else if begins_mark(text) {
        Some(1)
    } else {
        None
    }
}

/// The token at the front of the text, which begins with neither a letter nor a digit.
fn symbol_token(text: &[u8]) -> Option<Found>
    requires word { ¬ BeginsWith IsLetter text.now }
    requires number { ¬ BeginsWith IsDigit text.now }
    ensures { IsTokenAt text.now result }
{
    let len = symbol_len(text)?;
    Some(Found {
        len,
        lexeme: Lexeme::Symbol,
    })
}

/// The token at the front of the text, if one stands there. Linear in the longest lexeme there.
pub(crate) fn token_at(text: &[u8]) -> Option<Found>
    ensures { IsTokenAt text.now result }
{
    match text {
        [first, ..] if is_letter(*first) => word_token(text),
        [first, ..] if is_digit(*first) => number_token(text),
        _ => symbol_token(text),
    }
}
