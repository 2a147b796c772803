use spf_input::{InputFault, read_kernel};
use spf_kernel::print;
use spf_lex::TextKind;
use std::alloc::Global;
use std::process::Abort;
use std::test::Fail;

/// What `read_kernel` answered.
#[derive(Clone, Copy, Debug, PartialEq, Eq)]
enum Answer {
    /// A kernel, and how many loops and data sites it has.
    Kernel(usize, u32),
    /// A fault of the text, in this line and column.
    Text(u32, u32, TextKind),
    /// A broken rule of kernels, in this line and column.
    Rule(u32, u32, u32),
}

fn answer_to(rt: &impl Abort, alloc: Global, text: &[u8]) -> Result<Answer, Fail> {
    assert!(rt; text.len() <= 67_108_864);
    match read_kernel(alloc, text) {
        Ok(kernel) => Ok(Answer::Kernel(kernel.tree().loops.len(), kernel.data_sites())),
        Err(InputFault::Text { place, kind }) => Ok(Answer::Text(place.line, place.column, kind)),
        Err(InputFault::Kernel { place, rule }) => {
            Ok(Answer::Rule(place.line, place.column, rule))
        }
        Err(fault) => Err(Fail::from(fault)),
    }
}

const SWEEP: &[u8] = b"spf 1\n\
kernel { param n, z; index ia[n + 1] in 0 .. z + 1 monotone; index ja[z] in 0 .. n; data u[n], b[n], a[z]; steps 2; \
loop sweep (i in 0 .. n) { u[i] = b[i]; for p in ia[i] .. ia[i + 1] { if ja[p] != i { u[i] += a[p] * u[ja[p]]; } } } }\n\
script { tile sweep at 0 seed block 2; }\n\
input { n = 3; z = 7; ia = 0 2 5 7; ja = 0 1 0 1 2 1 2; u = 0 0 0; b = 1 2 3; a = 9 1 1 9 1 1 9; }\n";

#[test]
fn the_kernel_of_a_bundle_is_read(rt: HostRuntime) -> Result<(), Fail> {
    let kernel = read_kernel(rt.alloc(), SWEEP)?;
    assert_eq!(rt;
        print(rt.alloc(), &kernel)?.as_slice(),
        b"kernel { param n , z ; index ia [ n + 1 ] in 0 .. z + 1 monotone ; \
index ja [ z ] in 0 .. n ; data u [ n ] , b [ n ] , a [ z ] ; steps 2 ; \
loop sweep ( i in 0 .. n ) { u [ i ] = b [ i ] ; for p in ia [ i ] .. ia [ i + 1 ] { \
if ja [ p ] != i { u [ i ] += a [ p ] * u [ ja [ p ] ] ; } } } }"
            .as_slice()
    );
    Ok(())
}

#[test]
fn the_script_and_the_values_of_a_bundle_are_left_as_they_are(rt: HostRuntime) -> Result<(), Fail> {
    // Neither names a loop or an array, and 2^63 without `-` is no fault of the text.
    let table: [(&[u8], Answer); 4] = [
        (SWEEP, Answer::Kernel(1, 5)),
        (
            b"spf 1\nkernel { param n; data x[n]; steps 1; loop a (i in 0 .. n) { x[i] = x[i] + 1; } }\nscript { }\n\
input { n = 1; x = 9223372036854775808; }\n",
            Answer::Kernel(1, 2),
        ),
        (
            b"spf 01 kernel { steps 1; } script { cpack x by a; } input { }",
            Answer::Kernel(0, 0),
        ),
        (
            b"spf 1 kernel { steps 1; } script { } input { x = ; y = -0 007 1 - 9223372036854775808; x = 2; }# no line feed",
            Answer::Kernel(0, 0),
        ),
    ];
    for (text, answer) in table {
        assert_eq!(rt; answer_to(&rt, rt.alloc(), text)?, answer);
    }
    Ok(())
}

#[test]
fn a_bundle_ends_with_its_last_brace(rt: HostRuntime) -> Result<(), Fail> {
    let len = SWEEP.len();
    for end in 0..len - 1 {
        let answer = answer_to(&rt, rt.alloc(), &SWEEP[..end])?;
        assert!(rt; matches!(answer, Answer::Text(..)));
    }
    assert_eq!(rt;
        answer_to(&rt, rt.alloc(), &SWEEP[..len - 1])?,
        Answer::Kernel(1, 5)
    );
    Ok(())
}

#[test]
fn faults_of_the_text_stand_at_their_places(rt: HostRuntime) -> Result<(), Fail> {
    let table: [(&[u8], Answer); 27] = [
        (
            b"spf 1\nkernel { param n; data x[n]; steps 1; }\nscript { }\ninput { n = 1; x = 5",
            Answer::Text(4, 21, TextKind::End),
        ),
        (
            b"spf 3\nkernel { param n; data x[n]; steps 1; }\nscript { }\ninput { n = 1; x = 5",
            Answer::Text(1, 5, TextKind::Unexpected),
        ),
        (b"spf 1\n@", Answer::Text(2, 1, TextKind::Token)),
        (b"", Answer::Text(1, 1, TextKind::End)),
        (b"# spf 1\n", Answer::Text(2, 1, TextKind::End)),
        (
            b"kernel { steps 1; } script { } input { }",
            Answer::Text(1, 1, TextKind::Unexpected),
        ),
        (
            b"spf kernel { steps 1; } script { } input { }",
            Answer::Text(1, 5, TextKind::Unexpected),
        ),
        (b"spf 2\n", Answer::Text(1, 5, TextKind::Unexpected)),
        (
            b"spf 1 1 kernel { steps 1; } script { } input { }",
            Answer::Text(1, 7, TextKind::Unexpected),
        ),
        (
            b"spf 1 script { } input { }",
            Answer::Text(1, 7, TextKind::Unexpected),
        ),
        (
            b"spf 1 kernel { steps 1; } input { }",
            Answer::Text(1, 27, TextKind::Unexpected),
        ),
        (
            b"spf 1 kernel { steps 1; } script { cpack x }\ninput { }",
            Answer::Text(1, 44, TextKind::Unexpected),
        ),
        (
            b"spf 1 kernel { steps 1; } script { }",
            Answer::Text(1, 37, TextKind::End),
        ),
        (
            b"spf 1 kernel { steps 1; } script { } input }",
            Answer::Text(1, 44, TextKind::Unexpected),
        ),
        (
            b"spf 1 kernel { steps 1; } script { } input { x }",
            Answer::Text(1, 48, TextKind::Unexpected),
        ),
        (
            b"spf 1 kernel { steps 1; } script { } input { 1 = x; }",
            Answer::Text(1, 46, TextKind::Unexpected),
        ),
        (
            b"spf 1 kernel { steps 1; } script { } input { kernel = 1; }",
            Answer::Text(1, 46, TextKind::Unexpected),
        ),
        (
            b"spf 1 kernel { steps 1; } script { } input { x = - ; }",
            Answer::Text(1, 52, TextKind::Unexpected),
        ),
        (
            b"spf 1 kernel { steps 1; } script { } input { x = --1; }",
            Answer::Text(1, 51, TextKind::Unexpected),
        ),
        (
            b"spf 1 kernel { steps 1; } script { } input { x = 1, 2; }",
            Answer::Text(1, 51, TextKind::Unexpected),
        ),
        (
            b"spf 1 kernel { steps 1; } script { } input { x = y; }",
            Answer::Text(1, 50, TextKind::Unexpected),
        ),
        (
            b"spf 1 kernel { steps 1; } script { } input { x = 1 }",
            Answer::Text(1, 52, TextKind::Unexpected),
        ),
        (
            b"spf 1 kernel { steps 1; } script { } input { x = 1;",
            Answer::Text(1, 52, TextKind::End),
        ),
        (
            b"spf 1 kernel { steps 1; } script { } input { } }",
            Answer::Text(1, 48, TextKind::Unexpected),
        ),
        (
            b"spf 1 kernel { steps 1; } script { } input { }\nspf 1 kernel { steps 1; } script { } input { }\n",
            Answer::Text(2, 1, TextKind::Unexpected),
        ),
        (b"spf 2 @", Answer::Text(1, 7, TextKind::Token)),
        (
            b"spf 1 kernel { steps 1; } script { } input { x = 9223372036854775809; }",
            Answer::Text(1, 50, TextKind::Token),
        ),
    ];
    for (text, answer) in table {
        assert_eq!(rt; answer_to(&rt, rt.alloc(), text)?, answer);
    }
    Ok(())
}

#[test]
fn a_broken_rule_comes_after_the_faults_of_the_text(rt: HostRuntime) -> Result<(), Fail> {
    let table: [(&[u8], Answer); 5] = [
        (
            b"spf 1\nkernel { data x[2], y[2]; steps 1; loop a (i in 0 .. 2) { x[y[i]] = 0; } }\nscript { }\ninput { }\n",
            Answer::Rule(2, 61, 4),
        ),
        (
            b"spf 1\nkernel { data x[2], y[2]; steps 1; loop a (i in 0 .. 2) { x[y[i]] = 0; } }\nscript { cpack x }\ninput { }\n",
            Answer::Text(3, 18, TextKind::Unexpected),
        ),
        (
            b"spf 1\nkernel { data x[2], y[2]; steps 1; loop a (i in 0 .. 2) { x[y[i]] = 0; } }\nscript { }\ninput { x = 1 2",
            Answer::Text(4, 16, TextKind::End),
        ),
        (
            b"spf 1\nkernel { data x[2], y[2]; steps 1; loop a (i in 0 .. 2) { x[y[i]] = 0; } }\nscript { }\ninput { }\n;",
            Answer::Text(5, 1, TextKind::Unexpected),
        ),
        (
            b"spf 1\nkernel { data x[2], y[2]; steps 1; loop a (i in 0 .. 2) { x[y[i]] = 0; } }\nscript { }\ninput { } @",
            Answer::Text(4, 11, TextKind::Token),
        ),
    ];
    for (text, answer) in table {
        assert_eq!(rt; answer_to(&rt, rt.alloc(), text)?, answer);
    }
    Ok(())
}
