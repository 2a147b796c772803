//! Each limit, met and just passed.

use crate::kernel::{Answer, answer_to};
use spf_kernel::{parse, print};
use spf_lex::tokens;
use std::alloc::Global;
use std::process::Abort;
use std::test::Fail;

/// A text with something in it many times, each time with another name or the same.
#[derive(Clone, Copy)]
struct Many {
    front: &'static [u8],
    before: &'static [u8],
    named: bool,
    behind: &'static [u8],
    times: usize,
    back: &'static [u8],
}

impl Many {
    /// Puts the text behind another. A name is `q` and two letters.
    fn write(&self, text: &mut Vec<u8>) -> Result<(), Fail> {
        text.extend_from_slice(self.front)?;
        for n in 0..self.times {
            text.extend_from_slice(self.before)?;
            if self.named {
                text.push(b'q')?;
                text.push((97 + n / 26 % 26) as u8)?;
                text.push((97 + n % 26) as u8)?;
            }
            text.extend_from_slice(self.behind)?;
        }
        text.extend_from_slice(self.back)?;
        Ok(())
    }
}

#[test]
fn each_limit_is_met_and_just_passed(rt: HostRuntime) -> Result<(), Fail> {
    let table = [
        // 6: parameters, and arrays of both kinds together
        (
            Many {
                front: b"kernel { param zz",
                before: b", ",
                named: true,
                behind: b"",
                times: 63,
                back: b"; steps 1; }",
            },
            Answer::Kernel(135),
        ),
        (
            Many {
                front: b"kernel { param zz",
                before: b", ",
                named: true,
                behind: b"",
                times: 64,
                back: b"; steps 1; }",
            },
            Answer::Rule(1, 335, 6, 137),
        ),
        (
            Many {
                front: b"kernel { data zz[1]",
                before: b", ",
                named: true,
                behind: b"[1]",
                times: 63,
                back: b"; steps 1; }",
            },
            Answer::Kernel(327),
        ),
        (
            Many {
                front: b"kernel { index zz[1] in 0 .. 1; ",
                before: b"data ",
                named: true,
                behind: b"[1]; ",
                times: 64,
                back: b"steps 1; }",
            },
            Answer::Rule(1, 857, 6, 400),
        ),
        // 7: loops
        (
            Many {
                front: b"kernel { steps 1; ",
                before: b"loop ",
                named: true,
                behind: b" (i in 0 .. 1) { } ",
                times: 32,
                back: b"}",
            },
            Answer::Kernel(358),
        ),
        (
            Many {
                front: b"kernel { steps 1; ",
                before: b"loop ",
                named: true,
                behind: b" (i in 0 .. 1) { } ",
                times: 33,
                back: b"}",
            },
            Answer::Rule(1, 888, 7, 369),
        ),
        // 8: assignments in one loop
        (
            Many {
                front: b"kernel { data x[1]; steps 1; loop a (i in 0 .. 1) { ",
                before: b"x[0] = 1; ",
                named: false,
                behind: b"",
                times: 16,
                back: b"} loop b (i in 0 .. 1) { x[0] = 1; } }",
            },
            Answer::Kernel(153),
        ),
        (
            Many {
                front: b"kernel { data x[1]; steps 1; loop a (i in 0 .. 1) { if 0 < i { x[0] = 1; } ",
                before: b"x[0] = 1; ",
                named: false,
                behind: b"",
                times: 16,
                back: b"} }",
            },
            Answer::Rule(1, 226, 8, 148),
        ),
        // 9: monomials, those in brackets counted; of a bound of a loop; factors, those in parentheses counted
        (
            Many {
                front: b"kernel { steps 1",
                before: b" + 1",
                named: false,
                behind: b"",
                times: 63,
                back: b"; }",
            },
            Answer::Kernel(132),
        ),
        (
            Many {
                front: b"kernel { steps 1",
                before: b" + 1",
                named: false,
                behind: b"",
                times: 64,
                back: b"; }",
            },
            Answer::Rule(1, 272, 9, 134),
        ),
        (
            Many {
                front: b"kernel { index k[1] in 0 .. 1; data x[1]; steps 1; loop a (i in 0 .. 1) { x[k[i] + k[i",
                before: b" + 1",
                named: false,
                behind: b"",
                times: 60,
                back: b"]] = 1; } }",
            },
            Answer::Kernel(168),
        ),
        (
            Many {
                front: b"kernel { index k[1] in 0 .. 1; data x[1]; steps 1; loop a (i in 0 .. 1) { x[k[i] + k[i",
                before: b" + 1",
                named: false,
                behind: b"",
                times: 61,
                back: b"]] = 1; } }",
            },
            Answer::Rule(1, 330, 9, 170),
        ),
        (
            Many {
                front: b"kernel { steps 1; loop a (i in 1",
                before: b" + 1",
                named: false,
                behind: b"",
                times: 7,
                back: b" .. 1) { } }",
            },
            Answer::Kernel(31),
        ),
        (
            Many {
                front: b"kernel { steps 1; loop a (i in 0 .. 1",
                before: b" + 1",
                named: false,
                behind: b"",
                times: 8,
                back: b") { } }",
            },
            Answer::Rule(1, 69, 9, 33),
        ),
        (
            Many {
                front: b"kernel { data x[1]; steps 1; loop a (i in 0 .. 1) { x[0] = (1)",
                before: b" * 1",
                named: false,
                behind: b"",
                times: 63,
                back: b"; } }",
            },
            Answer::Kernel(158),
        ),
        (
            Many {
                front: b"kernel { data x[1]; steps 1; loop a (i in 0 .. 1) { x[0] = (1 - i)",
                before: b" * 1",
                named: false,
                behind: b"",
                times: 63,
                back: b"; } }",
            },
            Answer::Rule(1, 318, 9, 160),
        ),
        // 11: names with brackets in the loops
        (
            Many {
                front: b"kernel { data x[1]; steps 1; ",
                before: b"loop ",
                named: true,
                behind: b" (i in 0 .. 1) { x[0] = x[0] * x[0] * x[0] * x[0] * x[0] * x[0] * x[0]; x[0] = x[0] * x[0] * x[0] * x[0] * x[0] * x[0] * x[0]; } ",
                times: 16,
                back: b"}",
            },
            Answer::Kernel(1468),
        ),
        (
            Many {
                front: b"kernel { data x[1]; steps 1; ",
                before: b"loop ",
                named: true,
                behind: b" (i in 0 .. 1) { x[0] = x[0] * x[0] * x[0] * x[0] * x[0] * x[0] * x[0]; x[0] = x[0] * x[0] * x[0] * x[0] * x[0] * x[0] * x[0]; } ",
                times: 16,
                back: b"loop b (i in 0 .. 1) { x[0] = 1; } }",
            },
            Answer::Rule(1, 2245, 11, 1486),
        ),
    ];
    for (many, answer) in table {
        let mut text = Vec::new(rt.alloc());
        many.write(&mut text)?;
        assert_eq!(rt; answer_to(&rt, rt.alloc(), text.as_slice(), 0)?, answer);
    }
    Ok(())
}

/// 64 parameters, 64 arrays, and 32 loops, of which 16 have 16 assignments: with them there are 256 names with brackets.
const FULL: [Many; 4] = [
    Many {
        front: b"kernel { param n",
        before: b", p",
        named: true,
        behind: b"",
        times: 63,
        back: b"; ",
    },
    Many {
        front: b"data x[1]",
        before: b", d",
        named: true,
        behind: b"[1]",
        times: 63,
        back: b"; steps 1; ",
    },
    Many {
        front: b"",
        before: b"loop a",
        named: true,
        behind: b" (i in 0 .. 1) { x[0] = 1; x[0] = 1; x[0] = 1; x[0] = 1; x[0] = 1; x[0] = 1; x[0] = 1; x[0] = 1; \
x[0] = 1; x[0] = 1; x[0] = 1; x[0] = 1; x[0] = 1; x[0] = 1; x[0] = 1; x[0] = 1; } ",
        times: 16,
        back: b"",
    },
    Many {
        front: b"",
        before: b"loop b",
        named: true,
        behind: b" (i in 0 .. 1) { } ",
        times: 16,
        back: b"}",
    },
];

/// The text that the kernel of a text is printed as.
fn printed(rt: &impl Abort, alloc: Global, text: &[u8]) -> Result<Vec<u8>, Fail> {
    assert!(rt; text.len() <= 67_108_864);
    let tokens = tokens(alloc, text)?;
    let (kernel, _) = parse(alloc, &tokens, 0)?;
    Ok(print(alloc, &kernel)?)
}

#[test]
fn a_kernel_at_all_limits_is_printed_and_read_again(rt: HostRuntime) -> Result<(), Fail> {
    let mut text = Vec::new(rt.alloc());
    for many in FULL {
        many.write(&mut text)?;
    }
    let answer = answer_to(&rt, rt.alloc(), text.as_slice(), 0)?;
    assert_eq!(rt; answer, Answer::Kernel(2600));
    let first = printed(&rt, rt.alloc(), text.as_slice())?;
    let second = printed(&rt, rt.alloc(), first.as_slice())?;
    assert_eq!(rt; first.as_slice(), second.as_slice());
    Ok(())
}
