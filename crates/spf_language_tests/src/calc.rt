use spf_calc::{CalcFault, calculate};
use spf_lex::TextKind;
use std::alloc::Global;
use std::process::Abort;
use std::test::Fail;

/// Why a calculator text has no results.
#[derive(Clone, Copy, Debug, PartialEq, Eq)]
enum Refusal {
    /// It has.
    None,
    Text(u32, u32, TextKind),
    Rule(u32, u32),
}

fn refusal_of(rt: &impl Abort, alloc: Global, text: &[u8]) -> Result<Refusal, Fail> {
    assert!(rt; text.len() <= 67_108_864);
    match calculate(alloc, text) {
        Ok(_) => Ok(Refusal::None),
        Err(CalcFault::Text { place, kind }) => Ok(Refusal::Text(place.line, place.column, kind)),
        Err(CalcFault::Rule { statement, rule }) => Ok(Refusal::Rule(statement, rule)),
        Err(CalcFault::Memory) => Err(CalcFault::Memory.into()),
    }
}

fn results_of(rt: &impl Abort, alloc: Global, text: &[u8]) -> Result<Vec<u8>, Fail> {
    assert!(rt; text.len() <= 67_108_864);
    Ok(calculate(alloc, text)?)
}

/// Texts and their results.
const RESULTS: [(&[u8], &[u8]); 9] = [
    (b"calc 1", b""),
    (
        b"calc 1 let s = { [i] : 0 <= i and i < n }; let f = { [i] -> [j] : j = i + 1 }; show apply(f, s); show restrict(f, s); \
          show intersect(f, f); show union(f, f); show union(s, { [i] : i = n }); show intersect(s, { [i] : i = n });",
        b"{ [X0] : n >= X0 and X0 >= 1 }\n\
          { [X0] -> [Y0] : X0 + 1 = Y0 and n >= X0 + 1 and X0 >= 0 }\n\
          { [X0] -> [Y0] : X0 + 1 = Y0 }\n\
          { [X0] -> [Y0] : X0 + 1 = Y0 }\n\
          { [X0] : n >= X0 + 1 and X0 >= 0 } | { [X0] : X0 = n }\n\
          { [X0] : X0 = n and n >= X0 + 1 and X0 >= 0 }\n",
    ),
    (
        b"calc 1\nlet t = { [i] -> [q] : i = o[q] };\nlet m = { [i] -> [e] : e = left[i] };\nshow compose(m, inverse(t));\n\
          show compose(m, t);\nfunction compose(m, inverse(t));\nfunction compose(m, t);\n",
        b"{ [X0] -> [Y0] : Y0 = left[o[X0]] }\n\
          { [X0] -> [Y0] with E0 : X0 = o[E0] and Y0 = left[E0] }\n\
          [left[o[X0]]]\n\
          none\n",
    ),
    (
        b"calc 1 show none(1, 1); show compose(none(1, 1), none(1, 1));",
        b"none(1, 1)\nnone(1, 1)\n",
    ),
    (
        b"calc 1 function { [i] -> [] }; function none(0, 0); show none(8);",
        b"[]\nnone\nnone(8)\n",
    ),
    // operations stand eight deep, and names keep the numbers of their first use
    (
        b"calc 01 let r = { [a] -> [b] : b = m[a] + q }; function inverse(inverse(inverse(inverse(inverse(inverse(inverse(inverse(r))))))));",
        b"[q + m[X0]]\n",
    ),
    (
        b"calc 1 let unused = { [i] : i = b + a }; show { [i] : i = a + b };",
        b"{ [X0] : X0 = b + a }\n",
    ),
    (
        b"calc 1 show { [loop] : loop = kernel[in] };",
        b"{ [X0] : X0 = kernel[in] }\n",
    ),
    (
        b"calc 1 function { [i] -> [j, k] : j = 2 * i and k = j + f[j] };",
        b"[2 * X0, 2 * X0 + f[2 * X0]]\n",
    ),
];

#[test]
fn texts_have_their_results(rt: HostRuntime) -> Result<(), Fail> {
    for (text, results) in RESULTS.iter() {
        let answer = results_of(&rt, rt.alloc(), text)?;
        assert_eq!(rt; answer.as_slice(), *results);
    }
    Ok(())
}

/// Texts and why they have no results, or that they have.
const REFUSED: [(&[u8], Refusal); 29] = [
    (b"", Refusal::Text(1, 1, TextKind::End)),
    (b"calc 2", Refusal::Text(1, 6, TextKind::Unexpected)),
    (b"calc 1 show @", Refusal::Text(1, 13, TextKind::Token)),
    (b"calc 1 show f", Refusal::Text(1, 14, TextKind::End)),
    (
        b"calc 1 let with = f;",
        Refusal::Text(1, 12, TextKind::Unexpected),
    ),
    // syntax is tested in the whole text before any rule
    (b"calc 1 show f; show", Refusal::Text(1, 20, TextKind::End)),
    // a ninth operation within the others
    (
        b"calc 1 show inverse(inverse(inverse(inverse(inverse(inverse(inverse(inverse(inverse(f)))))))));",
        Refusal::Text(1, 77, TextKind::Unexpected),
    ),
    (b"calc 1 show f;", Refusal::Rule(1, 21)),
    (b"calc 1 let f = f;", Refusal::Rule(1, 21)),
    (
        b"calc 1 let f = none(1); let f = none(1);",
        Refusal::Rule(2, 21),
    ),
    (
        b"calc 1 let f = { [i, i] -> [j] : j = i };",
        Refusal::Rule(1, 23),
    ),
    (b"calc 1 function none(1);", Refusal::Rule(1, 22)),
    (b"calc 1 show inverse(none(1));", Refusal::Rule(1, 22)),
    (
        b"calc 1 show compose(none(1, 2), none(1, 2));",
        Refusal::Rule(1, 22),
    ),
    (
        b"calc 1 show apply(none(1), none(1));",
        Refusal::Rule(1, 22),
    ),
    (
        b"calc 1 show union(none(1), none(1, 1));",
        Refusal::Rule(1, 22),
    ),
    (b"calc 1 show { [i] } | { [i, j] };", Refusal::Rule(1, 22)),
    // the least rule of the whole statement
    (
        b"calc 1 show union(union({ [i, i] }, none(1)), f);",
        Refusal::Rule(1, 21),
    ),
    (
        b"calc 1 show union({ [i, i] }, none(1));",
        Refusal::Rule(1, 22),
    ),
    (
        b"calc 1 show union(none(9), { [i, a, b, c, d, e, f, g, i] });",
        Refusal::Rule(1, 23),
    ),
    (b"calc 1 show { [i] : i[0] = 0 };", Refusal::Rule(1, 23)),
    (b"calc 1 show none(1, 9);", Refusal::Rule(1, 24)),
    (b"calc 1 show { [i] : i = 4194305 };", Refusal::Rule(1, 24)),
    // 16 times 16 conjunctions are as many as may be, and one more is too many
    (
        b"calc 1 let a = { [i] -> [j] : i = 0 } | { [i] -> [j] : i = 1 } | { [i] -> [j] : i = 2 } | \
          { [i] -> [j] : i = 3 } | { [i] -> [j] : i = 4 } | { [i] -> [j] : i = 5 } | { [i] -> [j] : i = 6 } | \
          { [i] -> [j] : i = 7 } | { [i] -> [j] : i = 8 } | { [i] -> [j] : i = 9 } | { [i] -> [j] : i = 10 } | \
          { [i] -> [j] : i = 11 } | { [i] -> [j] : i = 12 } | { [i] -> [j] : i = 13 } | { [i] -> [j] : i = 14 } | \
          { [i] -> [j] : i = 15 }; \
          let b = inverse(a); let c = intersect(a, b); let d = union(c, none(1, 1));",
        Refusal::None,
    ),
    (
        b"calc 1 let a = { [i] -> [j] : i = 0 } | { [i] -> [j] : i = 1 } | { [i] -> [j] : i = 2 } | \
          { [i] -> [j] : i = 3 } | { [i] -> [j] : i = 4 } | { [i] -> [j] : i = 5 } | { [i] -> [j] : i = 6 } | \
          { [i] -> [j] : i = 7 } | { [i] -> [j] : i = 8 } | { [i] -> [j] : i = 9 } | { [i] -> [j] : i = 10 } | \
          { [i] -> [j] : i = 11 } | { [i] -> [j] : i = 12 } | { [i] -> [j] : i = 13 } | { [i] -> [j] : i = 14 } | \
          { [i] -> [j] : i = 15 }; \
          let b = inverse(a); let c = intersect(a, b); let d = union(c, { [i] -> [j] });",
        Refusal::Rule(4, 25),
    ),
    // 2^60 is a number within the number rule, and 2^80 isn't
    (
        b"calc 1 let f = { [i] -> [j] : j = 1048576 * i }; let h = compose(f, compose(f, f)); let k = compose(h, f);",
        Refusal::Rule(3, 25),
    ),
    (
        b"calc 1 let f = { [i] -> [j] : j = 1048576 * i }; let p = compose({ [a] -> [b, c] : b = a }, compose(f, compose(f, f))); \
          let q = intersect(p, { [a] -> [b, c] : c = 1048576 * b }); show q;",
        Refusal::None,
    ),
    (
        b"calc 1 let f = { [i] -> [j] : j = 1048576 * i }; let p = compose({ [a] -> [b, c] : b = a }, compose(f, compose(f, f))); \
          let q = intersect(p, { [a] -> [b, c] : c = 1048576 * b }); function q;",
        Refusal::Rule(4, 25),
    ),
    // a rule of an earlier statement comes first
    (b"calc 1 show none(9); show f;", Refusal::Rule(1, 24)),
];

#[test]
fn refused_texts_have_their_faults(rt: HostRuntime) -> Result<(), Fail> {
    for (text, fault) in REFUSED.iter() {
        let answer = refusal_of(&rt, rt.alloc(), text)?;
        assert_eq!(rt; answer, *fault);
    }
    Ok(())
}

/// The refusal of a text with so many statements.
fn refusal_of_many(rt: &impl Abort, alloc: Global, statements: usize) -> Result<Refusal, Fail> {
    let mut text = Vec::new(alloc);
    text.extend_from_slice(b"calc 1")?;
    for _ in 0..statements {
        text.extend_from_slice(b" show none(0);")?;
    }
    refusal_of(rt, alloc, text.as_slice())
}

#[test]
fn a_33rd_statement_is_refused(rt: HostRuntime) -> Result<(), Fail> {
    assert_eq!(rt; refusal_of_many(&rt, rt.alloc(), 32)?, Refusal::None);
    assert_eq!(rt;
        refusal_of_many(&rt, rt.alloc(), 33)?,
        Refusal::Rule(33, 24)
    );
    Ok(())
}

/// A relation that reads a table, composed with itself as often as there are names: what came out each time has the next name.
/// Then a relation made of these is written as a function.
fn doubled(alloc: Global, names: &[u8], relation: &[u8]) -> Result<Vec<u8>, Fail> {
    let mut text = Vec::new(alloc);
    text.extend_from_slice(b"calc 1 let a = { [i] -> [j] : j = p[i] };")?;
    let mut last = b'a';
    for name in names {
        text.extend_from_slice(b" let ")?;
        text.push(*name)?;
        text.extend_from_slice(b" = compose(")?;
        text.push(last)?;
        text.extend_from_slice(b", ")?;
        text.push(last)?;
        text.extend_from_slice(b");")?;
        last = *name;
    }
    text.extend_from_slice(b" function ")?;
    text.extend_from_slice(relation)?;
    text.extend_from_slice(b";")?;
    Ok(text)
}

/// A function of one output: the table, read so many times in itself.
fn nested(alloc: Global, depth: usize) -> Result<Vec<u8>, Fail> {
    let mut text = Vec::new(alloc);
    text.push(b'[')?;
    for _ in 0..depth {
        text.extend_from_slice(b"p[")?;
    }
    text.extend_from_slice(b"X0")?;
    for _ in 0..depth {
        text.push(b']')?;
    }
    text.extend_from_slice(b"]\n")?;
    Ok(text)
}

// The checked build of a try needs more than 8 MB of stack for this.
#[test]
fn terms_nest_thousands_deep(rt: HostRuntime) -> Result<(), Fail> {
    let alloc = rt.alloc();
    // 8,192, 4,096, 2,048, 1,024, 512 and 128 reads of the table, one in another
    let parts = b"compose(n, compose(m, compose(l, compose(k, compose(j, h)))))";
    let deep = results_of(
        &rt,
        alloc,
        doubled(alloc, b"bcdefghijklmn", parts)?.as_slice(),
    )?;
    assert_eq!(rt; deep.as_slice(), nested(alloc, 16_000)?.as_slice());
    // 16,384 applications, and then X0 and Y0 beside them, are more monomials than may be
    let past = refusal_of(
        &rt,
        alloc,
        doubled(alloc, b"bcdefghijklmno", b"o")?.as_slice(),
    )?;
    assert_eq!(rt; past, Refusal::Rule(15, 25));
    Ok(())
}
