//! Kernels: which texts are read, and to what.

mod limits;
mod printing;
mod rules;

use spf_kernel::{KernelFault, parse};
use spf_lex::{TextKind, tokens};
use std::alloc::Global;
use std::process::Abort;
use std::test::Fail;

/// What `parse` answered.
#[derive(Clone, Copy, Debug, PartialEq, Eq)]
enum Answer {
    /// A kernel, and the number of the token behind it.
    Kernel(u32),
    /// A fault of syntax, in this line and column.
    Syntax(u32, u32, TextKind),
    /// A broken rule, in this line and column, and the number of the token behind the kernel.
    Rule(u32, u32, u32, u32),
}

/// What parsing answers from the token of this number on.
fn answer_to(rt: &impl Abort, alloc: Global, text: &[u8], from: u32) -> Result<Answer, Fail> {
    assert!(rt; text.len() <= 67_108_864);
    let tokens = tokens(alloc, text)?;
    assert!(rt; from <= tokens.len());
    match parse(alloc, &tokens, from) {
        Ok((_, next)) => Ok(Answer::Kernel(next)),
        Err(KernelFault::Syntax { place, kind }) => {
            Ok(Answer::Syntax(place.line, place.column, kind))
        }
        Err(KernelFault::Rule { place, rule, next }) => {
            Ok(Answer::Rule(place.line, place.column, rule, next))
        }
        Err(KernelFault::Memory) => Err(Fail::from(KernelFault::Memory)),
    }
}

/// A bundle with one kernel, from token 2 on, that breaks a rule.
const BUNDLE: &[u8] = b"spf 1\n\
kernel { data x[2], y[2]; steps 1; loop a (i in 0 .. 2) { x[y[i]] = 0; } }\n\
script { }\ninput { }\n";

#[test]
fn a_kernel_is_read_to_its_last_brace_or_to_its_first_fault_of_syntax(
    rt: HostRuntime,
) -> Result<(), Fail> {
    // A text, the token to begin at, and the answer.
    let table: [(&[u8], u32, Answer); 18] = [
        (b"kernel { steps 1; }", 0, Answer::Kernel(6)),
        (b"kernel { steps 1; } script { }", 0, Answer::Kernel(6)),
        (
            b"spf 1 kernel { steps 1; } script { }",
            2,
            Answer::Kernel(8),
        ),
        (
            b"kernel { param n, m; index k[n] in -1 .. 2 * n - 3 strict; data x[n], y[m]; steps n; }",
            0,
            Answer::Kernel(38),
        ),
        (
            b"kernel { steps 1; loop a (i in 0 .. 2) { if i == 0 and -i < 1 { x[i] = -(1 - (x[i])) * 2; } } }",
            0,
            Answer::Rule(1, 65, 3, 47),
        ),
        (BUNDLE, 2, Answer::Rule(2, 61, 4, 40)),
        (BUNDLE, 0, Answer::Syntax(1, 1, TextKind::Unexpected)),
        (BUNDLE, 40, Answer::Syntax(3, 1, TextKind::Unexpected)),
        (b"", 0, Answer::Syntax(1, 1, TextKind::End)),
        (b"kernel {", 0, Answer::Syntax(1, 9, TextKind::End)),
        (
            b"kernel {\n steps 1;",
            0,
            Answer::Syntax(2, 10, TextKind::End),
        ),
        (
            b"kernel { param n m; }",
            0,
            Answer::Syntax(1, 18, TextKind::Unexpected),
        ),
        (
            b"kernel { param in; }",
            0,
            Answer::Syntax(1, 16, TextKind::Unexpected),
        ),
        (
            b"kernel { steps 1 }",
            0,
            Answer::Syntax(1, 18, TextKind::Unexpected),
        ),
        (
            b"kernel { index k[1] in 0 .. 1 monotone strict; }",
            0,
            Answer::Syntax(1, 40, TextKind::Unexpected),
        ),
        // brackets 6 deep
        (
            b"kernel { steps a[a[a[a[a[a[0]]]]]]; }",
            0,
            Answer::Syntax(1, 27, TextKind::Unexpected),
        ),
        // parentheses 9 deep
        (
            b"kernel { steps 1; loop a (i in 0 .. 2) { x[i] = (((((((((1",
            0,
            Answer::Syntax(1, 57, TextKind::Unexpected),
        ),
        // a `for` in a `for`
        (
            b"kernel { steps 1; loop a (i in 0 .. 2) { for p in 0 .. 1 { for q",
            0,
            Answer::Syntax(1, 60, TextKind::Unexpected),
        ),
    ];
    for (text, from, answer) in table {
        assert_eq!(rt; answer_to(&rt, rt.alloc(), text, from)?, answer);
    }
    Ok(())
}
