ghost use Rattle.std.specs.Prelude.{◌≡◌, [], All, IfOk};
ghost use Rattle.spf_term.specs.Value.{IsSmall};
ghost use Rattle.spf_loop_tests.specs.Terms.{nested, pair, reading, small_env};

use spf_term::{Atom, Env, Mono, Reader, Term, applications, value, walk};
use sqlite_items::Items;
use std::alloc::{AllocError, Global};
use std::process::Abort;
use std::test::Fail;

/// A parameter, and two tables of three entries.
fn small_env(alloc: Global) -> Result<Env, AllocError>
    ensures { IfOk result (λ env. env ≡ small_env) }
{
    let first = vec![in alloc; 10, 20, 30]?;
    let second = vec![in alloc; 2, -1, 3]?;
    Ok(Env {
        params: vec![in alloc; 7]?,
        tables: vec![in alloc; first, second]?,
    })
}

/// A coefficient times the entry of a table at a place, and a constant.
fn reading(
    alloc: Global,
    coef: i64,
    fun: u32,
    place: i64,
    constant: i64,
) -> Result<Term, AllocError>
    ensures { IfOk result (λ term. term ≡ reading coef fun place constant) }
{
    let arg = Term {
        monos: Items::new(alloc),
        constant: place,
    };
    let mut monos = Items::new(alloc);
    monos.push(Mono {
        coef,
        atom: Atom::App { fun, arg },
    })?;
    Ok(Term { monos, constant })
}

/// The entry of the first table at the entry of the second at a place.
fn nested(alloc: Global, place: i64) -> Result<Term, AllocError>
    ensures { IfOk result (λ term. term ≡ nested place) }
{
    let arg = reading(alloc, 1, 1, place, 0)?;
    let mut monos = Items::new(alloc);
    monos.push(Mono {
        coef: 1,
        atom: Atom::App { fun: 0, arg },
    })?;
    Ok(Term { monos, constant: 0 })
}

/// The entry of the first table at the first of the second, and that of the second behind its last.
fn pair(alloc: Global) -> Result<Term, AllocError>
    ensures { IfOk result (λ term. term ≡ pair) }
{
    let Term {
        mut monos,
        constant,
    } = nested(alloc, 0)?;
    let arg = Term {
        monos: Items::new(alloc),
        constant: 3,
    };
    monos.push(Mono {
        coef: 1,
        atom: Atom::App { fun: 1, arg },
    })?;
    Ok(Term { monos, constant })
}

/// A term, and its value.
#[derive(Drop)]
struct Case {
    term: Term,
    value: Option<i64>,
}

fn have_values(rt: &impl Abort, env: &Env, cases: &[Case])
    requires { All (λ case. IsSmall env.now [] case.term) cases.now }
{
    for case in cases {
        assert_eq!(rt; value(&case.term, env, &[]), case.value);
    }
}

#[test]
fn a_term_has_a_value_where_no_table_is_read_outside(rt: HostRuntime) -> Result<(), Fail> {
    let alloc = rt.alloc();
    let env = small_env(alloc)?;
    let negative = reading(alloc, -3, 0, 1, 5)?;
    let last = reading(alloc, 1, 0, 2, 0)?;
    let behind = reading(alloc, 1, 0, 3, 0)?;
    let below = reading(alloc, 1, 0, -1, 0)?;
    let far_below = reading(alloc, 1, 0, i64::MIN, 0)?;
    let missing = reading(alloc, 1, 9, 0, 4)?;
    let least = reading(alloc, i64::MAX, 1, 1, -1)?;
    let inside = nested(alloc, 0)?;
    let nested_below = nested(alloc, 1)?;
    let cases = [
        Case {
            term: negative,
            value: Some(-55),
        },
        Case {
            term: last,
            value: Some(30),
        },
        Case {
            term: behind,
            value: None,
        },
        Case {
            term: below,
            value: None,
        },
        Case {
            term: far_below,
            value: None,
        },
        Case {
            term: missing,
            value: None,
        },
        Case {
            term: least,
            value: Some(i64::MIN),
        },
        Case {
            term: inside,
            value: Some(30),
        },
        Case {
            term: nested_below,
            value: None,
        },
    ];
    have_values(&rt, &env, &cases);
    Ok(())
}

/// The entries that it is told of: the application, the table and the place.
#[derive(Drop)]
struct Recorder {
    entries: Vec<(u32, u32, i64)>,
}

impl Reader for Recorder {
    type Stop = AllocError;

    ghost accepts = { λ _ _ _. Unit {0} };

    ghost refuses = { λ _ _ _. Unit {0} };

    fn entry(&mut self, site: u32, table: u32, place: i64) -> Result<(), AllocError> {
        self.entries.push((site, table, place))?;
        Ok(())
    }
}

#[test]
fn an_argument_is_told_first_and_names_are_numbered_in_order(rt: HostRuntime) -> Result<(), Fail> {
    let alloc = rt.alloc();
    let env = small_env(alloc)?;
    let term = pair(alloc)?;
    assert_eq!(rt; applications(&term), 3);
    let mut recorder = Recorder {
        entries: Vec::new(alloc),
    };
    let walked = walk(&env, &[], &term, 10, &mut recorder)?;
    assert_eq!(rt; (walked.value, walked.next), (30, 13));
    assert_eq!(rt;
        recorder.entries.as_slice(),
        [(11, 1, 0), (10, 0, 2), (12, 1, 3)].as_slice()
    );
    Ok(())
}
