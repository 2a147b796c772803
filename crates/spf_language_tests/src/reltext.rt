use spf_base::NoMemory;
use spf_lex::{TextKind, tokens};
use spf_rel::{Rel, Set};
use spf_reltext::{
    RelNames, RelTextFault, Shape, TermNames, parse_rel, parse_set, print_rel, print_set, push_term,
};
use spf_term::{Atom, Mono, Term};
use sqlite_items::Items;
use std::alloc::{AllocError, Global};
use std::process::Abort;
use std::test::Fail;

/// What a relation is printed as.
fn printed(rt: &impl Abort, alloc: Global, text: &[u8]) -> Result<Vec<u8>, Fail> {
    assert!(rt; text.len() <= 67_108_864);
    let tokens = tokens(alloc, text)?;
    let mut names = RelNames::new(alloc);
    let (rel, next) = parse_rel(alloc, &tokens, 0, &mut names)?;
    assert_eq!(rt; next, tokens.len());
    Ok(print_rel(alloc, &rel, &names)?)
}

/// Relations, and what they are printed as: the terms as they are written, each side with its own sign.
const RELATIONS: [(&[u8], &[u8]); 9] = [
    (
        b"{ [i] -> [j] : j = i + 1 }",
        b"{ [X0] -> [Y0] : Y0 = X0 + 1 }",
    ),
    (
        b"{ [i] -> [q] with e : i = o[e] and q = left[e] }",
        b"{ [X0] -> [Y0] with E0 : X0 = o[E0] and Y0 = left[E0] }",
    ),
    (b"{ [ ] -> [ ] }", b"{ [] -> [] }"),
    (
        b"{ [a, b] -> [c] with d, e }",
        b"{ [X0, X1] -> [Y0] with E0, E1 }",
    ),
    (
        b"{ [i] -> [j] : i < j } | { [j] -> [i] : i >= 2 * n }",
        b"{ [X0] -> [Y0] : Y0 >= X0 + 1 } | { [X0] -> [Y0] : Y0 >= 2 * n }",
    ),
    (
        b"{ [i] -> [j] : i <= 3 and j > f[g[i - 1]] and 0 = 0 }",
        b"{ [X0] -> [Y0] : 0 = 0 and 3 >= X0 and Y0 >= f[g[X0 - 1]] + 1 }",
    ),
    (
        b"{ [i] -> [j] : -i = j - 007 * f[-2 * i + 1] }",
        b"{ [X0] -> [Y0] : 7 * f[-2 * X0 + 1] = X0 + Y0 }",
    ),
    (
        b"{ [loop] -> [j] : j = loop + loops[0] }",
        b"{ [X0] -> [Y0] : Y0 = X0 + loops[0] }",
    ),
    (
        b"{ [i] -> [j] : n + n[0] >= m - n }",
        b"{ [X0] -> [Y0] : n + n[0] + n >= m }",
    ),
];

#[test]
fn relations_are_printed_as_they_are_written(rt: HostRuntime) -> Result<(), Fail> {
    for (text, print) in RELATIONS.iter() {
        let answer = printed(&rt, rt.alloc(), text)?;
        assert_eq!(rt; answer.as_slice(), *print);
    }
    Ok(())
}

/// What reading a set answered.
#[derive(Clone, Copy, Debug, PartialEq, Eq)]
enum Answer {
    /// This many names of parameters and functions, and the number of the token behind the set.
    Read(usize, usize, u32),
    /// A broken rule, the number of the token behind the literals, and the arity of the first one, if it is of a set.
    Rule(u32, u32, Option<usize>),
    Syntax(u32, TextKind),
}

fn answer_to(rt: &impl Abort, alloc: Global, text: &[u8]) -> Result<Answer, Fail> {
    assert!(rt; text.len() <= 67_108_864);
    let tokens = tokens(alloc, text)?;
    let mut names = RelNames::new(alloc);
    match parse_set(alloc, &tokens, 0, &mut names) {
        Ok((_, next)) => Ok(Answer::Read(names.params.len(), names.funs.len(), next)),
        Err(RelTextFault::Syntax { place, kind }) => Ok(Answer::Syntax(place.column, kind)),
        Err(RelTextFault::Rule { rule, next, shape }) => {
            let arity = match shape {
                Shape::Points { arity } => Some(arity),
                Shape::Pairs { .. } => None,
            };
            Ok(Answer::Rule(rule, next, arity))
        }
        Err(RelTextFault::Memory) => Err(Fail::from(RelTextFault::Memory)),
    }
}

#[test]
fn sets_are_read_to_their_end_or_to_the_least_rule_that_they_break(
    rt: HostRuntime,
) -> Result<(), Fail> {
    let table: [(&[u8], Answer); 15] = [
        (b"{ [i] : 0 <= i and i < n } ;", Answer::Read(1, 0, 13)),
        (
            b"{ [i] : n = f[g[m]] } | { [j] : f[j] = n }",
            Answer::Read(2, 2, 28),
        ),
        (
            b"{ [i] : i = 1048576 * n - 4194304 }",
            Answer::Read(1, 0, 13),
        ),
        (b"{ [i] -> [j] }", Answer::Rule(22, 9, None)),
        (b"{ [i] } | { [i, j] }", Answer::Rule(22, 13, Some(1))),
        (b"{ [i, i] } | { [i] } ;", Answer::Rule(22, 13, Some(2))),
        (b"{ [i] with i }", Answer::Rule(23, 7, Some(1))),
        (
            b"{ [i] : i[0] = 1048577 * i }",
            Answer::Rule(23, 14, Some(1)),
        ),
        (
            b"{ [a, b, c, d, e, f, g, h, i] }",
            Answer::Rule(24, 21, Some(9)),
        ),
        (b"{ [i] : i = 1048577 * n }", Answer::Rule(24, 11, Some(1))),
        (b"{ [i] : i = f[4194305] }", Answer::Rule(24, 12, Some(1))),
        (b"{ [with] }", Answer::Syntax(4, TextKind::Unexpected)),
        (
            b"{ [i] : i == 0 }",
            Answer::Syntax(11, TextKind::Unexpected),
        ),
        (b"{ [i] } |", Answer::Syntax(10, TextKind::End)),
        (
            b"{ [i] : a[a[a[a[a[a[i]]]]]] = 0 }",
            Answer::Syntax(20, TextKind::Unexpected),
        ),
    ];
    for (text, answer) in table.iter() {
        assert_eq!(rt; answer_to(&rt, rt.alloc(), text)?, *answer);
    }
    Ok(())
}

#[test]
fn what_has_no_conjunction_is_printed_with_its_arities(rt: HostRuntime) -> Result<(), Fail> {
    let names = RelNames::new(rt.alloc());
    let rel = Rel {
        ins: 1,
        outs: 2,
        conjs: Items::new(rt.alloc()),
    };
    let text = print_rel(rt.alloc(), &rel, &names)?;
    assert_eq!(rt; text.as_slice(), b"none(1, 2)".as_slice());
    let set = Set {
        arity: 3,
        conjs: Items::new(rt.alloc()),
    };
    let text = print_set(rt.alloc(), &set, &names)?;
    assert_eq!(rt; text.as_slice(), b"none(3)".as_slice());
    Ok(())
}

/// The names of an executor's terms: a position and an inner variable, and the order of a loop with the longest name.
#[derive(Drop)]
struct ExecutorNames {}

impl TermNames for ExecutorNames {
    ghost use Rattle.std.specs.Prelude.{◌==◌, if◌then◌else◌, codes};

    ghost naming = { λ _. record {
      variable = λ number. if number == 0 then codes "P" else codes "J";
      param = λ number. codes "n";
      fun = λ number. codes "O_abcdefghijklmnopqrstuvwxyzabcdef";
    } };

    fn push_variable(&self, text: &mut Vec<u8>, number: u32) -> Result<(), NoMemory> {
        text.extend_from_slice(if number == 0 { b"P" } else { b"J" })?;
        Ok(())
    }

    fn push_param(&self, text: &mut Vec<u8>, _number: u32) -> Result<(), NoMemory> {
        text.extend_from_slice(b"n")?;
        Ok(())
    }

    fn push_fun(&self, text: &mut Vec<u8>, _number: u32) -> Result<(), NoMemory> {
        text.extend_from_slice(b"O_abcdefghijklmnopqrstuvwxyzabcdef")?;
        Ok(())
    }
}

/// An inner variable less a parameter and twice the order at a position.
fn executor_term(alloc: Global) -> Result<Term, AllocError> {
    let mut position = Items::new(alloc);
    position.push(Mono {
        coef: 1,
        atom: Atom::Var(0),
    })?;
    let arg = Term {
        monos: position,
        constant: 1,
    };
    let mut monos = Items::new(alloc);
    monos.push(Mono {
        coef: 1,
        atom: Atom::Var(1),
    })?;
    monos.push(Mono {
        coef: -1,
        atom: Atom::Param(0),
    })?;
    monos.push(Mono {
        coef: -2,
        atom: Atom::App { fun: 0, arg },
    })?;
    Ok(Term { monos, constant: 0 })
}

#[test]
fn terms_are_printed_with_the_names_that_are_given(rt: HostRuntime) -> Result<(), Fail> {
    let term = executor_term(rt.alloc())?;
    let mut text = Vec::new(rt.alloc());
    push_term(&mut text, &ExecutorNames {}, &term)?;
    let wanted = b"J - n - 2 * O_abcdefghijklmnopqrstuvwxyzabcdef[P + 1]";
    assert_eq!(rt; text.as_slice(), wanted.as_slice());
    Ok(())
}
