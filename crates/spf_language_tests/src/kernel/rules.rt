//! Each rule, broken at its place.

use crate::kernel::{Answer, answer_to};
use std::test::Fail;

#[test]
fn each_rule_is_broken_at_its_place(rt: HostRuntime) -> Result<(), Fail> {
    let table: [(&[u8], Answer); 24] = [
        // 1: capitals
        (b"kernel { param N; steps 1; }", Answer::Rule(1, 16, 1, 9)),
        (
            b"kernel { steps 1; loop a (I in 0 .. 1) { } }",
            Answer::Rule(1, 27, 1, 17),
        ),
        // 2: names that are taken
        (
            b"kernel { param n, n; steps 1; }",
            Answer::Rule(1, 19, 2, 11),
        ),
        (
            b"kernel { param n; steps 1; loop n (i in 0 .. 1) { } }",
            Answer::Rule(1, 33, 2, 20),
        ),
        (
            b"kernel { steps 1; loop a (i in 0 .. 1) { for i in 0 .. 1 { } } }",
            Answer::Rule(1, 46, 2, 25),
        ),
        (
            b"kernel { steps 1; loop a (i in 0 .. 1) { } loop b (i in 0 .. 1) { } }",
            Answer::Kernel(28),
        ),
        // 3: unknown names, and those that are declared later or are out of scope
        (b"kernel { steps n; }", Answer::Rule(1, 16, 3, 6)),
        (
            b"kernel { data x[n]; param n; steps 1; }",
            Answer::Rule(1, 17, 3, 15),
        ),
        (
            b"kernel { data x[1]; steps 1; loop a (i in 0 .. 1) { } loop b (j in 0 .. 1) { x[i] = 1; } }",
            Answer::Rule(1, 80, 3, 41),
        ),
        (
            b"kernel { data x[1]; steps 1; loop a (i in 0 .. i) { } }",
            Answer::Rule(1, 48, 3, 23),
        ),
        // 4: names of the wrong kind
        (
            b"kernel { data x[1], y[x]; steps 1; }",
            Answer::Rule(1, 23, 4, 17),
        ),
        (
            b"kernel { index k[k] in 0 .. 1; steps 1; }",
            Answer::Rule(1, 18, 4, 16),
        ),
        (
            b"kernel { index k[1] in 0 .. 1; steps k[0]; }",
            Answer::Rule(1, 38, 4, 19),
        ),
        (
            b"kernel { param n; steps n[0]; }",
            Answer::Rule(1, 25, 4, 12),
        ),
        (
            b"kernel { index k[1] in 0 .. 1; steps 1; loop a (i in 0 .. 1) { k[0] = 1; } }",
            Answer::Rule(1, 64, 4, 34),
        ),
        (
            b"kernel { data x[1]; steps 1; loop a (i in 0 .. 1) { x[0] = a; } }",
            Answer::Rule(1, 60, 4, 30),
        ),
        // 5: numbers
        (b"kernel { steps 4194304; }", Answer::Kernel(6)),
        (b"kernel { steps 4194305; }", Answer::Rule(1, 16, 5, 6)),
        (
            b"kernel { param n; steps 1048576 * n; }",
            Answer::Kernel(11),
        ),
        (
            b"kernel { param n; steps 1048577 * n; }",
            Answer::Rule(1, 25, 5, 11),
        ),
        // 10: conditions
        (
            b"kernel { steps 1; loop a (i in 0 .. 1) { if 0 < i and 0 < i and 0 < i and 0 < i { } } }",
            Answer::Kernel(35),
        ),
        (
            b"kernel { steps 1; loop a (i in 0 .. 1) { if 0 < i and 0 < i and 0 < i and 0 < i and -1 < i { } } }",
            Answer::Rule(1, 85, 10, 40),
        ),
        // the lesser of two rules at one place, and the earlier of two places
        (
            b"kernel { param N, N; steps 1; }",
            Answer::Rule(1, 16, 1, 11),
        ),
        (
            b"kernel { param n, N, n; steps k; }",
            Answer::Rule(1, 19, 1, 13),
        ),
    ];
    for (text, answer) in table {
        assert_eq!(rt; answer_to(&rt, rt.alloc(), text, 0)?, answer);
    }
    Ok(())
}
