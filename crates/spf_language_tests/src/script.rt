use spf_lex::{TextKind, tokens};
use spf_script::{ScriptTextFault, parse, print};
use std::alloc::Global;
use std::process::Abort;
use std::test::Fail;

/// What `parse` answered.
#[derive(Clone, Copy, Debug, PartialEq, Eq)]
enum Answer {
    /// This many steps, and the number of the token behind them.
    Steps(usize, u32),
    /// A fault of syntax, in this line and column.
    Syntax(u32, u32, TextKind),
}

/// What parsing answers from the token of this number on.
fn answer_to(rt: &impl Abort, alloc: Global, text: &[u8], from: u32) -> Result<Answer, Fail> {
    assert!(rt; text.len() <= 67_108_864);
    let tokens = tokens(alloc, text)?;
    assert!(rt; from <= tokens.len());
    match parse(alloc, &tokens, from) {
        Ok((script, next)) => Ok(Answer::Steps(script.steps().len(), next)),
        Err(ScriptTextFault::Syntax { place, kind }) => {
            Ok(Answer::Syntax(place.line, place.column, kind))
        }
        Err(ScriptTextFault::Memory) => Err(Fail::from(ScriptTextFault::Memory)),
    }
}

/// The text that the script of a text is printed as.
fn printed(rt: &impl Abort, alloc: Global, text: &[u8]) -> Result<Vec<u8>, Fail> {
    assert!(rt; text.len() <= 67_108_864);
    let tokens = tokens(alloc, text)?;
    let (script, _) = parse(alloc, &tokens, 0)?;
    Ok(print(alloc, &script)?)
}

/// Scripts, how many steps and tokens they have, and what they are printed as.
const SCRIPTS: [(&[u8], usize, u32, &[u8]); 14] = [
    (b"script { }", 0, 3, b"script { }"),
    (
        b"script { cpack x by a; }",
        1,
        8,
        b"script { cpack x by a ; }",
    ),
    (
        b"script { cpack u, a by sweep; }",
        1,
        10,
        b"script { cpack u , a by sweep ; }",
    ),
    (
        b"script { lexgroup a by fx; }",
        1,
        8,
        b"script { lexgroup a by fx ; }",
    ),
    (
        b"script { lexsort force by x; }",
        1,
        8,
        b"script { lexsort force by x ; }",
    ),
    (
        b"script { bucket force by x size 2; }",
        1,
        10,
        b"script { bucket force by x size 2 ; }",
    ),
    (
        b"script { tile a at 0 seed block 1025; }",
        1,
        11,
        b"script { tile a at 0 seed block 1025 ; }",
    ),
    (
        b"script { tile force at 1 seed spread 2; }",
        1,
        11,
        b"script { tile force at 1 seed spread 2 ; }",
    ),
    (
        b"script { tile sweep at 0 seed plug 0 2; }",
        1,
        12,
        b"script { tile sweep at 0 seed plug 0 2 ; }",
    ),
    (
        b"script { tile sweep at 0 seed plug 1 2; }",
        1,
        12,
        b"script { tile sweep at 0 seed plug 1 2 ; }",
    ),
    (
        b"script { tile a at 0 seed block 2; tilepack x; }",
        2,
        14,
        b"script { tile a at 0 seed block 2 ; tilepack x ; }",
    ),
    (
        b"script { cpack x, vx, fx by force; lexgroup force by x; tile force at 1 seed block 2; }",
        3,
        25,
        b"script { cpack x , vx , fx by force ; lexgroup force by x ; tile force at 1 seed block 2 ; }",
    ),
    // neither what a name names nor how large a number is matters, and zeros in front of it are lost
    (
        b"script{tilepack x,x,X;tile f at 9223372036854775808 seed plug 00 01;}",
        2,
        19,
        b"script { tilepack x , x , X ; tile f at 9223372036854775808 seed plug 0 1 ; }",
    ),
    (
        b"script { # a step\n\tbucket f\n by f # size\n size 007; }",
        1,
        10,
        b"script { bucket f by f size 7 ; }",
    ),
];

#[test]
fn scripts_are_printed_with_a_blank_between_two_tokens_and_what_is_printed_stays_as_it_is(
    rt: HostRuntime,
) -> Result<(), Fail> {
    for (text, steps, tokens, expected) in SCRIPTS {
        let answer = Answer::Steps(steps, tokens);
        assert_eq!(rt; answer_to(&rt, rt.alloc(), text, 0)?, answer);
        let first = printed(&rt, rt.alloc(), text)?;
        assert_eq!(rt; first.as_slice(), expected);
        assert_eq!(rt; answer_to(&rt, rt.alloc(), first.as_slice(), 0)?, answer);
        let second = printed(&rt, rt.alloc(), first.as_slice())?;
        assert_eq!(rt; second.as_slice(), expected);
    }
    Ok(())
}

/// A bundle whose script begins at token 14.
const BUNDLE: &[u8] =
    b"spf 1\nkernel { data x[2]; steps 1; }\nscript { tile a at 0 seed block 2; }\ninput { x = 1 2; }\n";

#[test]
fn a_script_is_read_to_its_brace_or_to_its_first_fault_of_syntax(
    rt: HostRuntime,
) -> Result<(), Fail> {
    // A text, the token to begin at, and the answer.
    let table: [(&[u8], u32, Answer); 33] = [
        (BUNDLE, 14, Answer::Steps(1, 25)),
        (BUNDLE, 13, Answer::Syntax(2, 30, TextKind::Unexpected)),
        (BUNDLE, 25, Answer::Syntax(4, 1, TextKind::Unexpected)),
        (BUNDLE, 33, Answer::Syntax(5, 1, TextKind::End)),
        (b"script { } }", 0, Answer::Steps(0, 3)),
        (b"", 0, Answer::Syntax(1, 1, TextKind::End)),
        (b"script", 0, Answer::Syntax(1, 7, TextKind::End)),
        (b"script {", 0, Answer::Syntax(1, 9, TextKind::End)),
        (b"Script { }", 0, Answer::Syntax(1, 1, TextKind::Unexpected)),
        (b"script }", 0, Answer::Syntax(1, 8, TextKind::Unexpected)),
        (
            b"script { x }",
            0,
            Answer::Syntax(1, 10, TextKind::Unexpected),
        ),
        (
            b"script { ; }",
            0,
            Answer::Syntax(1, 10, TextKind::Unexpected),
        ),
        (
            b"script { cpack by f; }",
            0,
            Answer::Syntax(1, 16, TextKind::Unexpected),
        ),
        (
            b"script { cpack x, by f; }",
            0,
            Answer::Syntax(1, 19, TextKind::Unexpected),
        ),
        (
            b"script { cpack x y by f; }",
            0,
            Answer::Syntax(1, 18, TextKind::Unexpected),
        ),
        (
            b"script { cpack x; }",
            0,
            Answer::Syntax(1, 17, TextKind::Unexpected),
        ),
        (
            b"script { cpack x by f, g; }",
            0,
            Answer::Syntax(1, 22, TextKind::Unexpected),
        ),
        (
            b"script { lexgroup f, g by x; }",
            0,
            Answer::Syntax(1, 20, TextKind::Unexpected),
        ),
        (
            b"script { lexsort f by 1; }",
            0,
            Answer::Syntax(1, 23, TextKind::Unexpected),
        ),
        (
            b"script { bucket f by x; }",
            0,
            Answer::Syntax(1, 23, TextKind::Unexpected),
        ),
        (
            b"script { bucket f by x size -1; }",
            0,
            Answer::Syntax(1, 29, TextKind::Unexpected),
        ),
        (
            b"script { bucket f by x size 2 }",
            0,
            Answer::Syntax(1, 31, TextKind::Unexpected),
        ),
        (
            b"script { tile f seed block 2; }",
            0,
            Answer::Syntax(1, 17, TextKind::Unexpected),
        ),
        (
            b"script { tile f at s seed block 2; }",
            0,
            Answer::Syntax(1, 20, TextKind::Unexpected),
        ),
        (
            b"script { tile f at 0 block 2; }",
            0,
            Answer::Syntax(1, 22, TextKind::Unexpected),
        ),
        (
            b"script { tile f at 0 seed halving 2; }",
            0,
            Answer::Syntax(1, 27, TextKind::Unexpected),
        ),
        (
            b"script { tile f at 0 seed plug 2; }",
            0,
            Answer::Syntax(1, 33, TextKind::Unexpected),
        ),
        (
            b"script { tile f at 0 seed block 1 2; }",
            0,
            Answer::Syntax(1, 35, TextKind::Unexpected),
        ),
        (
            b"script { tile tile at 0 seed block 2; }",
            0,
            Answer::Syntax(1, 15, TextKind::Unexpected),
        ),
        (
            b"script { tilepack }",
            0,
            Answer::Syntax(1, 19, TextKind::Unexpected),
        ),
        (
            b"script { tilepack x by f; }",
            0,
            Answer::Syntax(1, 21, TextKind::Unexpected),
        ),
        (
            b"script { cpack x by f;\n  tile f at 0 seed spread",
            0,
            Answer::Syntax(2, 26, TextKind::End),
        ),
        (
            b"script { cpack x by f;\n  tilepack x;\n",
            0,
            Answer::Syntax(3, 1, TextKind::End),
        ),
    ];
    for (text, from, answer) in table {
        assert_eq!(rt; answer_to(&rt, rt.alloc(), text, from)?, answer);
    }
    Ok(())
}
