//! The numbers that are given for a name, which stay among the tokens until they are read.

ghost use Rattle.std.specs.Prelude.{◌≡◌, ◌<◌, ◌≤◌, ◌++◌, [], ◌∷◌, true, false, FitsSigned, length, pos, MatchOption, OnOk};
ghost use Rattle.std.specs.Int.{w64};
ghost use Rattle.std.specs.List.{AllByRecursion, position_from};
ghost use Rattle.spf_lex.specs.Tokens.{texts};
ghost use Rattle.spf_kernel.specs.Resolved.{signed};
ghost use Rattle.spf_input.specs.Given.{numbers_between};
ghost use Rattle.spf_input.specs.Numbers.{only};
ghost use Rattle.spf_input.specs.Rules.{is_from_to, is_large, is_parameter};
ghost use Rattle.spf_input.specs.Tested.{listed};

use spf_base::NoMemory;
use spf_lex::{Lexeme, Tokens};

/// The numbers from one token on up to another.
#[derive(Clone, Copy)]
pub(crate) struct Numbers<'a> {
    pub tokens: &'a Tokens<'a>,
    pub at: u32,
    pub to: u32,
}

/// A number with the sign in front of it, and the token behind it.
#[derive(Drop)]
struct Read {
    minus: bool,
    number: u64,
    next: u32,
}

/// The value of a number with a sign.
fn value(minus: bool, number: u64) -> i64
    requires { FitsSigned w64 (signed minus number) }
    ensures { result ≡ signed minus number }
{
    let number = i128::from(number);
    if minus { -number as i64 } else { number as i64 }
}

/// Whether a number with a sign is one that a parameter may have.
fn is_in_range(minus: bool, number: u64) -> bool
    ensures { result ≡ is_from_to (pos 0) (pos 4194304) (signed minus number) }
{
    number <= if minus { 0 } else { 4_194_304 }
}

/// The first of the numbers that begin at a token, if there is one. Linear in its tokens.
fn next_number(tokens: &Tokens, at: u32, to: u32) -> Option<Read>
    ensures { MatchOption result
        (numbers_between (texts tokens.now) at to ≡ [])
        (λ read. (numbers_between (texts tokens.now) at to ≡ signed read.minus read.number ∷ numbers_between (texts tokens.now) read.next to) × (at < read.next) × (read.next ≤ to)) }
{
    let mut minus = false;
    for place in at..to.min(tokens.len()) {
        match tokens.lexeme(place) {
            Lexeme::Number(number) => {
                return Some(Read {
                    minus,
                    number,
                    next: place + 1,
                });
            }
            Lexeme::Word | Lexeme::Symbol => minus = true,
        }
    }
    None
}

impl<'a> Numbers<'a> {
    /// The place of the first that is 2^63 without `-`. Linear in them.
    pub(crate) fn first_large(self) -> Option<u32>
        ensures { result ≡ position_from is_large 0 (listed self.entry) }
    {
        let mut place = 0;
        let mut at = self.at;
        while let Some(read) = next_number(self.tokens, at, self.to) {
            if !read.minus && read.number >= 1 << 63 {
                return Some(place);
            }
            place += 1;
            at = read.next;
        }
        None
    }

    /// How many there are. Linear in them.
    pub(crate) fn count(self) -> u32
        ensures { result ≡ length (listed self.entry) }
    {
        let mut count = 0;
        let mut at = self.at;
        while let Some(read) = next_number(self.tokens, at, self.to) {
            count += 1;
            at = read.next;
        }
        count
    }

    /// The one number, if there is one alone and it is a parameter's.
    pub(crate) fn parameter(self) -> Option<i64>
        ensures { MatchOption result (is_parameter (listed self.entry) ≡ false) (λ value. (is_parameter (listed self.entry) ≡ true) × (value ≡ only (listed self.entry))) }
    {
        let read = next_number(self.tokens, self.at, self.to)?;
        if next_number(self.tokens, read.next, self.to).is_some() {
            return None;
        }
        if !is_in_range(read.minus, read.number) {
            return None;
        }
        Some(value(read.minus, read.number))
    }

    /// Puts them behind the numbers of a list. Linear in them.
    pub(crate) fn push_to(self, list: &mut Vec<i64>) -> Result<(), NoMemory>
        requires { AllByRecursion (FitsSigned w64) (listed self) }
        ensures { OnOk result (list.new.items ≡ list.old.items ++ listed self.entry) }
    {
        let mut at = self.at;
        while let Some(read) = next_number(self.tokens, at, self.to) {
            list.push(value(read.minus, read.number))?;
            at = read.next;
        }
        Ok(())
    }
}
