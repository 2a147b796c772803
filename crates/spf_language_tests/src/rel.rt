use spf_lex::tokens;
use spf_rel::as_function;
use spf_reltext::{Layout, RelNames, parse_rel, push_term};
use std::alloc::Global;
use std::process::Abort;
use std::test::Fail;

/// The outputs as terms in the inputs, each with a semicolon behind it, or `none`.
fn function(rt: &impl Abort, alloc: Global, text: &[u8]) -> Result<Vec<u8>, Fail> {
    assert!(rt; text.len() <= 67_108_864);
    let tokens = tokens(alloc, text)?;
    let mut names = RelNames::new(alloc);
    let (rel, _) = parse_rel(alloc, &tokens, 0, &mut names)?;
    let layout = Layout {
        ins: rel.ins,
        outs: rel.outs,
        names: &names,
    };
    let mut print = Vec::new(alloc);
    match as_function(alloc, &rel)? {
        None => print.extend_from_slice(b"none")?,
        Some(terms) => {
            for term in terms.as_slice() {
                push_term(&mut print, &layout, term)?;
                print.push(b';')?;
            }
        }
    }
    Ok(print)
}

/// Relations, and their outputs as terms in their inputs.
const FUNCTIONS: [(&[u8], &[u8]); 9] = [
    (
        b"{ [i] -> [e] with q : q = o[i] and e = left[q] }",
        b"left[o[X0]];",
    ),
    (b"{ [i] -> [e] with q : i = o[q] and e = left[q] }", b"none"),
    (
        b"{ [i] -> [a, b] : a + b = i and b = 2 * i }",
        b"-X0;2 * X0;",
    ),
    (
        b"{ [i] -> [a, b] : a = b + 1 and b = i - 1 }",
        b"X0;X0 - 1;",
    ),
    (b"{ [i] -> [a] : 2 * a = i }", b"none"),
    (b"{ [i] -> [a] : f[a] = i + a }", b"none"),
    (
        b"{ [i] -> [a] : a = i } | { [i] -> [a] : a = i + 1 }",
        b"none",
    ),
    (b"{ [i] -> [a] : a = i } | { [j] -> [b] : b = j }", b"X0;"),
    (b"{ [i] -> [] : i >= 0 }", b""),
];

#[test]
fn outputs_are_terms_in_the_inputs(rt: HostRuntime) -> Result<(), Fail> {
    for (text, print) in FUNCTIONS.iter() {
        let answer = function(&rt, rt.alloc(), text)?;
        assert_eq!(rt; answer.as_slice(), *print);
    }
    Ok(())
}
