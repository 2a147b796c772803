use spf_base::{Name, Place};
use spf_io::{MemSink, MemSource};
use spf_lex::TextKind;
use spf_space::Unit;
use spf_top::{Outcome, What, command, status};
use std::alloc::Global;
use std::test::Fail;

const INCREMENT: &[u8] =
    b"spf 1\nkernel { param n; data x[n]; steps 1; loop a (i in 0 .. n) { x[i] = x[i] + 1; } }\nscript { }\ninput { n = 3; x = 1 2 3; }\n";

/// What a run of `command` left: its exit status, its text and its line.
#[derive(Drop)]
struct Ran {
    status: u8,
    out: Vec<u8>,
    err: Vec<u8>,
}

/// Runs the words on an input in pieces of 16, of which calls fail as listed, to a sink of room 100 in pieces of 3.
fn run(
    alloc: Global,
    words: &[&str],
    input: &[u8],
    read_faults: &[u32],
    write_faults: &[u32],
) -> Result<Ran, Fail> {
    let mut owned = Vec::new(alloc);
    for word in words {
        owned.push(String::from_str(alloc, word)?)?;
    }
    let mut source = MemSource::new(
        Vec::from_slice(alloc, input)?,
        16,
        Vec::from_slice(alloc, read_faults)?,
    );
    let mut out = MemSink::new(alloc, 100, 3, Vec::from_slice(alloc, write_faults)?)?;
    let mut err = MemSink::new(alloc, 100, 16, Vec::new(alloc))?;
    let outcome = command(alloc, &owned, &mut source, &mut out, &mut err);
    Ok(Ran {
        status: status(&outcome),
        out: Vec::from_slice(alloc, out.written())?,
        err: Vec::from_slice(alloc, err.written())?,
    })
}

#[test]
fn bundles_are_run(rt: HostRuntime) -> Result<(), Fail> {
    let rows: [(&[u8], &[u8]); 10] = [
        (INCREMENT, b"x 2 3 4\n"),
        (
            b"spf 1 kernel { param n; data x[n]; steps 1; loop a (i in 0 .. n) { x[i] = x[i] + 1; } } script { } input { n = 2; x = 9223372036854775807 -9223372036854775808; }",
            b"x -9223372036854775808 -9223372036854775807\n",
        ),
        (
            b"spf 1 kernel { param n; data x[n]; steps 0; loop a (i in 0 .. n) { x[i] = x[i + 9]; } } script { } input { n = 2; x = 5 6; }",
            b"x 5 6\n",
        ),
        (
            b"spf 01 kernel{param n;data x[n];steps 3;loop a(i in 1..n){x[i]=x[i]+10;}}script{}input{n=3;x=-1 0 5;}# no line feed",
            b"x -1 30 35\n",
        ),
        (b"spf 1 kernel { steps 1; } script { } input { }", b""),
        (
            b"spf 1 kernel { param n; data x[n]; steps 1; loop a (i in 0 .. n) { x[i] = x[i] + 9223372036854775808; } } script { } input { n = 1; x = 1; }",
            b"x -9223372036854775807\n",
        ),
        // a guard, whose second condition isn't looked at where the first is false
        (
            b"spf 1 kernel { index l[2] in 0 .. 9; data x[3]; steps 1; loop a (i in 0 .. 3) { if i < 2 and l[i] == 7 { x[i] += i * i - l[i]; } } } script { } input { l = 7 8; x = 0 0 0; }",
            b"x -7 0 0\n",
        ),
        // a `for` from 2 up to but not including 5
        (
            b"spf 1 kernel { data x[1], y[6]; steps 2; loop a (i in 0 .. 1) { for p in 2 .. 5 { x[i] += y[p]; } } } script { } input { x = 0; y = 1 2 3 4 5 6; }",
            b"x 24\ny 1 2 3 4 5 6\n",
        ),
        (
            b"spf 1 kernel { param n, z; index ia[n + 1] in 0 .. z + 1 monotone; index ja[z] in 0 .. n; data u[n], b[n], a[z]; steps 2; loop sweep (i in 0 .. n) { u[i] = b[i]; for p in ia[i] .. ia[i + 1] { if ja[p] != i { u[i] += a[p] * u[ja[p]]; } } } } script { } input { n = 3; z = 7; ia = 0 2 5 7; ja = 0 1 0 1 2 1 2; u = 0 0 0; b = 1 2 3; a = 9 1 1 9 1 1 9; }",
            b"u 4 12 15\nb 1 2 3\na 9 1 1 9 1 1 9\n",
        ),
        (
            b"spf 1 kernel { param n, m; index left[m] in 0 .. n; index right[m] in 0 .. n; data fx[n]; steps 1; loop a (j in 0 .. m) { fx[left[j]] += fx[right[j]]; } } script { } input { n = 2; m = 2; left = 0 0; right = 1 0; fx = 5 7; }",
            b"fx 24 7\n",
        ),
    ];
    for (input, text) in rows {
        let ran = run(rt.alloc(), &["run"], input, &[], &[])?;
        assert_eq!(rt; ran.status, 0);
        assert_eq!(rt; ran.out.as_slice(), text);
        assert!(rt; ran.err.is_empty());
    }
    Ok(())
}

#[test]
fn plans_are_shown(rt: HostRuntime) -> Result<(), Fail> {
    let rows: [(&[u8], &[u8]); 3] = [
        (
            b"spf 1 kernel { param n; data x[n]; steps 0; loop a (i in 0 .. n) { x[i] = x[i] + 1; } } script { } input { n = 0; x = ; }",
            b"loop a\ndata x\ntiles 1\nbefore 0\n",
        ),
        // the order of a loop that begins below 0
        (
            b"spf 1 kernel { index k[3] in 0 .. 3; data x[3]; steps 1; loop a (i in -1 .. 2) { x[k[i + 1]] = 7; } } script { lexgroup a by x; } input { k = 2 0 1; x = 1 2 3; }",
            b"loop a 0 1 -1\ndata x 0 1 2\ntiles 1\nat 0 a 0 0 0\nbefore 0\n",
        ),
        (
            b"spf 1 kernel { param n; data x[n]; steps 1; loop a (i in 1 .. n) { x[i] += x[i - 1]; } } script { tile a at 0 seed block 3; } input { n = 4; x = 1 1 1 1; }",
            b"loop a 1 2 3\ndata x 0 1 2 3\ntiles 3\nat 0 a 0 1 2\nbefore 0\nbefore 1 0\nbefore 2 0 1\n",
        ),
    ];
    for (input, text) in rows {
        let ran = run(rt.alloc(), &["plan"], input, &[], &[])?;
        assert_eq!(rt; ran.status, 0);
        assert_eq!(rt; ran.out.as_slice(), text);
        assert!(rt; ran.err.is_empty());
    }
    Ok(())
}

#[test]
fn refusals_are_told_with_their_places(rt: HostRuntime) -> Result<(), Fail> {
    let rows: [(&[u8], u8, &[u8]); 19] = [
        (b"", 5, b"text: 1:1 end\n"),
        (
            b"spf 2 kernel { steps 1; } script { } input { }",
            5,
            b"text: 1:5 unexpected\n",
        ),
        (
            b"spf 1 kernel { steps 1; } script { } input { } spf",
            5,
            b"text: 1:48 unexpected\n",
        ),
        (
            b"spf 1 kernel { steps @; } script { } input { }",
            5,
            b"text: 1:22 token\n",
        ),
        (
            b"spf 1 kernel { steps 4194305; } script { } input { }",
            6,
            b"kernel: 1:22 rule 5\n",
        ),
        (
            b"spf 1\nkernel { data x[2], y[2]; steps 1; loop a (i in 0 .. 2) { x[y[i]] = 0; } }\nscript { }\ninput { }\n",
            6,
            b"kernel: 2:61 rule 4\n",
        ),
        (
            b"spf 1 kernel { data x[1]; steps 1; } script { } input { }",
            7,
            b"input: x 0 rule 3\n",
        ),
        // a site of the second iteration
        (
            b"spf 1 kernel { data x[3], y[3]; steps 1; loop a (i in 0 .. 3) { y[i] = x[i + 1]; } } script { } input { x = 1 2 3; y = 0 0 0; }",
            8,
            b"range: a 2 site 2 value 3\n",
        ),
        // an index array inside another: the inner one is read first
        (
            b"spf 1 kernel { index l[1] in 0 .. 9; data x[9]; steps 1; loop a (i in 3 .. 4) { x[l[l[i]]] = 0; } } script { } input { l = 5; x = 0 0 0 0 0 0 0 0 0; }",
            8,
            b"range: a 3 site 3 value 3\n",
        ),
        // in a guard
        (
            b"spf 1 kernel { index l[1] in 0 .. 9; steps 1; loop a (i in -1 .. 0) { if l[i] < 0 { } } } script { } input { l = 5; }",
            8,
            b"range: a -1 site 1 value -1\n",
        ),
        // the lower bound of a `for`, which is a site before the names in it
        (
            b"spf 1 kernel { steps 1; loop a (i in 0 .. 1) { for p in 4194304 + 1 .. 0 { } } } script { } input { }",
            8,
            b"range: a 0 site 1 value 4194305\n",
        ),
        // the target behind the value
        (
            b"spf 1 kernel { data x[1]; steps 1; loop a (i in 0 .. 1) { x[1] = x[2]; } } script { } input { x = 0; }",
            8,
            b"range: a 0 site 2 value 2\n",
        ),
        (
            b"spf 1 kernel { data x[1]; steps 1; loop a (i in 0 .. 1) { x[1] = 0; } } script { } input { x = 0; }",
            8,
            b"range: a 0 site 1 value 1\n",
        ),
        (
            b"spf 1 kernel { param n; data x[n]; steps 4194304; loop a (i in 0 .. n) { } } script { } input { n = 2; x = 1 2; }",
            12,
            b"limit: units 8388608\n",
        ),
        // five accesses in each of 4194304 steps
        (
            b"spf 1 kernel { data x[1]; steps 4194304; loop a (i in 0 .. 1) { x[0] = x[0] + x[0] + x[0] + x[0]; } } script { } input { x = 1; }",
            12,
            b"limit: visits 20971520\n",
        ),
        // an access is counted before its place is looked at
        (
            b"spf 1 kernel { data x[1]; steps 4194304; loop a (i in 0 .. 1) { x[1] = x[0] + x[0] + x[0] + x[0]; } } script { } input { x = 1; }",
            12,
            b"limit: visits 20971520\n",
        ),
        // iteration 2 would run before iteration 1, whose cell it reads
        (
            b"spf 1 kernel { param n; index k[n] in 0 .. n; data x[n], y[n]; steps 1; loop a (i in 1 .. n) { x[i] += x[i - 1] + y[k[i]]; } } script { lexgroup a by y; } input { n = 4; k = 3 2 1 0; x = 1 1 1 1; y = 0 0 0 0; }",
            10,
            b"illegal: step 1 reverses 0 a 1 and 0 a 2\n",
        ),
        // an iteration that reads and adds to one element
        (
            b"spf 1 kernel { param n, m; index left[m] in 0 .. n; index right[m] in 0 .. n; data fx[n]; steps 1; loop a (j in 0 .. m) { fx[left[j]] += fx[right[j]]; } } script { lexgroup a by fx; } input { n = 2; m = 2; left = 0 0; right = 1 0; fx = 5 7; }",
            10,
            b"illegal: step 1 reverses 0 a 0 and 0 a 1\n",
        ),
        // the pair of the least second unit, and for it of the greatest first one, in the first step in which there is one
        (
            b"spf 1 kernel { index k[5] in 0 .. 5; data x[5], y[5]; steps 2; loop b (i in 0 .. 1) { } loop a (i in -2 .. 3) { x[0] = y[k[i + 2]]; } } script { lexgroup a by x; lexsort a by y; } input { k = 1 3 2 0 4; x = 0 0 0 0 0; y = 0 0 0 0 0; }",
            10,
            b"illegal: step 2 reverses 0 a -1 and 0 a 0\n",
        ),
    ];
    for (input, status, line) in rows {
        let ran = run(rt.alloc(), &["run"], input, &[], &[])?;
        assert_eq!(rt; ran.status, status);
        assert!(rt; ran.out.is_empty());
        assert_eq!(rt; ran.err.as_slice(), line);
    }
    Ok(())
}

/// For each rule of inputs a bundle that just meets it, and one that just breaks it, which is told by this line.
const RULES: [(&[u8], &[u8], &[u8]); 15] = [
    (
        b"spf 1 kernel { param n; steps 1; } script { } input { n = 1; }",
        b"spf 1 kernel { param n; steps 1; } script { } input { n = 1; q = 2; n = 3; }",
        b"input: q 0 rule 1\n",
    ),
    (
        b"spf 1 kernel { param n, m; steps 1; } script { } input { m = 1; n = 2; }",
        b"spf 1 kernel { param n, m; steps 1; } script { } input { n = 1; n = 2; }",
        b"input: n 0 rule 2\n",
    ),
    (
        b"spf 1 kernel { param n; data x[0]; steps 1; } script { } input { x = ; n = 1; }",
        b"spf 1 kernel { param n; data x[0]; steps 1; } script { } input { n = 4194305; }",
        b"input: x 0 rule 3\n",
    ),
    (
        b"spf 1 kernel { param n; steps 1; } script { } input { n = 4194304; }",
        b"spf 1 kernel { param n; steps 1; } script { } input { n = 4194305; }",
        b"input: n 0 rule 4\n",
    ),
    (
        b"spf 1 kernel { param n; steps 1; } script { } input { n = -0; }",
        b"spf 1 kernel { param n; steps 1; } script { } input { n = 1 2; }",
        b"input: n 0 rule 4\n",
    ),
    (
        b"spf 1 kernel { data x[2]; steps 1; } script { } input { x = 0 9223372036854775807; }",
        b"spf 1 kernel { data x[2]; steps 1; } script { } input { x = 0 9223372036854775808; }",
        b"input: x 1 rule 5\n",
    ),
    (
        b"spf 1 kernel { param n; data x[n - 1]; steps 1; } script { } input { n = 1; x = ; }",
        b"spf 1 kernel { param n; data x[n - 1]; steps 1; } script { } input { n = 0; x = ; }",
        b"input: x 0 rule 6\n",
    ),
    (
        b"spf 1 kernel { data x[2]; steps 1; } script { } input { x = 4 5; }",
        b"spf 1 kernel { data x[2]; steps 1; } script { } input { x = 4 5 6; }",
        b"input: x 3 rule 7\n",
    ),
    (
        b"spf 1 kernel { index l[2] in 1 .. 3; steps 1; } script { } input { l = 1 2; }",
        b"spf 1 kernel { index l[2] in 1 .. 3; steps 1; } script { } input { l = 1 3; }",
        b"input: l 1 rule 8\n",
    ),
    (
        b"spf 1 kernel { param n; index l[1] in 0 - n .. 1; steps 1; } script { } input { n = 4194304; l = -4194304; }",
        b"spf 1 kernel { param n; index l[1] in 0 - n - 1 .. 1; steps 1; } script { } input { n = 4194304; l = -4194305; }",
        b"input: l 0 rule 8\n",
    ),
    (
        b"spf 1 kernel { index l[3] in 0 .. 3 monotone; steps 1; } script { } input { l = 0 1 1; }",
        b"spf 1 kernel { index l[3] in 0 .. 3 monotone; steps 1; } script { } input { l = 0 1 0; }",
        b"input: l 2 rule 9\n",
    ),
    (
        b"spf 1 kernel { index l[3] in 0 .. 3 strict; steps 1; } script { } input { l = 0 1 2; }",
        b"spf 1 kernel { index l[3] in 0 .. 3 strict; steps 1; } script { } input { l = 0 0 2; }",
        b"input: l 1 rule 9\n",
    ),
    (
        b"spf 1 kernel { param n; steps n; } script { } input { n = 4194304; }",
        b"spf 1 kernel { param n; steps n + 1; } script { } input { n = 4194304; }",
        b"input: steps 0 rule 10\n",
    ),
    (
        b"spf 1 kernel { param n; steps n - 1; } script { } input { n = 1; }",
        b"spf 1 kernel { param n; steps n - 1; } script { } input { n = 0; }",
        b"input: steps 0 rule 10\n",
    ),
    (
        b"spf 1 kernel { param n; steps 1; loop a (i in n - 1 .. n) { } } script { } input { n = 4194304; }",
        b"spf 1 kernel { param n; steps 1; loop a (i in n .. n + 1) { } } script { } input { n = 4194304; }",
        b"input: a 0 rule 11\n",
    ),
];

#[test]
fn each_rule_of_inputs_is_just_met_and_just_broken(rt: HostRuntime) -> Result<(), Fail> {
    for (met, broken, line) in RULES {
        let ran = run(rt.alloc(), &["run"], met, &[], &[])?;
        assert_eq!(rt; ran.status, 0);
        assert!(rt; ran.err.is_empty());
        let ran = run(rt.alloc(), &["run"], broken, &[], &[])?;
        assert_eq!(rt; ran.status, 7);
        assert!(rt; ran.out.is_empty());
        assert_eq!(rt; ran.err.as_slice(), line);
    }
    Ok(())
}

/// Scripts for two steps of a loop `a` over arrays of two, two and three cells, with the exit status and the line of each.
/// Those that are right come in front of those that just break the rule.
const SCRIPTS: [(&[u8], u8, &[u8]); 27] = [
    (b"", 0, b""),
    (b"lexgroup a by x;", 0, b""),
    (b"lexgroup b by x;", 9, b"script: step 1 rule 2\n"),
    (b"lexsort x by x;", 9, b"script: step 1 rule 2\n"),
    (b"lexsort a by a;", 9, b"script: step 1 rule 2\n"),
    (b"cpack x, y by a;", 0, b""),
    (b"cpack x, y by x;", 9, b"script: step 1 rule 2\n"),
    (b"cpack x, y, x by a;", 9, b"script: step 1 rule 3\n"),
    (b"cpack x, x, z by b;", 9, b"script: step 1 rule 2\n"),
    (b"cpack x, x, z by a;", 9, b"script: step 1 rule 3\n"),
    (b"tilepack x, z;", 9, b"script: step 1 rule 4\n"),
    (b"bucket a by x size 1;", 0, b""),
    (b"bucket a by x size 0;", 9, b"script: step 1 rule 5\n"),
    (b"tile a at 0 seed block 1;", 0, b""),
    (b"tile a at 0 seed spread 0;", 9, b"script: step 1 rule 5\n"),
    (b"tile a at 1 seed block 2;", 0, b""),
    (b"tile a at 2 seed block 2;", 9, b"script: step 1 rule 6\n"),
    (b"lexgroup a by x; tile a at 0 seed block 1;", 0, b""),
    (
        b"tile a at 0 seed block 1; lexgroup a by x;",
        9,
        b"script: step 2 rule 7\n",
    ),
    (
        b"tile a at 0 seed block 1; tile a at 0 seed block 1;",
        9,
        b"script: step 2 rule 7\n",
    ),
    (b"tile a at 0 seed block 1; tilepack x;", 0, b""),
    (b"tilepack x;", 0, b""),
    (
        b"tilepack x; tile a at 0 seed block 1;",
        9,
        b"script: step 1 rule 8\n",
    ),
    (b"tile a at 0 seed plug 0 1;", 9, b"script: step 1 rule 9\n"),
    (b"tile a at 0 seed block 1024;", 0, b""),
    (b"tile a at 0 seed block 1025;", 12, b"limit: tiles 1025\n"),
    (
        b"tile a at 0 seed block 1025; cpack x by a;",
        9,
        b"script: step 2 rule 7\n",
    ),
];

/// Runs a bundle with this script.
fn run_script(alloc: Global, script: &[u8]) -> Result<Ran, Fail> {
    let kernel: &[u8] =
        b"spf 1 kernel { data x[2], y[2], z[3]; steps 2; loop a (i in 0 .. 2) { x[i] += y[i]; z[0] += 1; } } script { ";
    let mut text = Vec::from_slice(alloc, kernel)?;
    text.extend_from_slice(script)?;
    text.extend_from_slice(b" } input { x = 1 2; y = 3 4; z = 0 0 0; }")?;
    run(alloc, &["run"], text.as_slice(), &[], &[])
}

#[test]
fn each_rule_of_scripts_is_just_met_and_just_broken(rt: HostRuntime) -> Result<(), Fail> {
    for (script, status, line) in SCRIPTS {
        let ran = run_script(rt.alloc(), script)?;
        assert_eq!(rt; ran.status, status);
        assert_eq!(rt; ran.err.as_slice(), line);
        let wanted: &[u8] = if status == 0 {
            b"x 7 10\ny 3 4\nz 4 0 0\n"
        } else {
            b""
        };
        assert_eq!(rt; ran.out.as_slice(), wanted);
    }
    Ok(())
}

#[test]
fn a_script_has_at_most_32_steps(rt: HostRuntime) -> Result<(), Fail> {
    let mut script = Vec::new(rt.alloc());
    for _ in 0..32 {
        script.extend_from_slice(b"lexgroup a by x; ")?;
    }
    assert_eq!(rt; run_script(rt.alloc(), script.as_slice())?.status, 0);
    script.extend_from_slice(b"lexgroup a by x; ")?;
    let ran = run_script(rt.alloc(), script.as_slice())?;
    assert_eq!(rt; ran.status, 9);
    assert_eq!(rt; ran.err.as_slice(), b"script: step 33 rule 1\n".as_slice());
    Ok(())
}

/// The exit status of a run on so many blanks, and its line.
fn run_blanks(alloc: Global, count: usize) -> Result<(u8, Vec<u8>), Fail> {
    let mut words = Vec::new(alloc);
    words.push(String::from_str(alloc, "run")?)?;
    let spaces = vec![in alloc; b' '; count]?;
    let mut source = MemSource::new(spaces, u32::MAX, Vec::new(alloc));
    let mut out = MemSink::new(alloc, 100, 3, Vec::new(alloc))?;
    let mut err = MemSink::new(alloc, 100, 16, Vec::new(alloc))?;
    let outcome = command(alloc, &words, &mut source, &mut out, &mut err);
    Ok((status(&outcome), Vec::from_slice(alloc, err.written())?))
}

#[test]
fn one_byte_more_than_64_mib_is_too_many(rt: HostRuntime) -> Result<(), Fail> {
    let (ended, line) = run_blanks(rt.alloc(), 67_108_865)?;
    assert_eq!(rt; ended, 12);
    assert_eq!(rt; line.as_slice(), b"limit: bytes 67108865\n".as_slice());
    let (ended, line) = run_blanks(rt.alloc(), 67_108_864)?;
    assert_eq!(rt; ended, 5);
    assert_eq!(rt; line.as_slice(), b"text: 1:67108865 end\n".as_slice());
    Ok(())
}

#[test]
fn a_refused_word_and_a_device_that_fails_are_told(rt: HostRuntime) -> Result<(), Fail> {
    // The words, the calls of the source and of the sink that fail, the exit status, and what stands on both sinks.
    let rows: [(&[&str], &[u32], &[u32], u8, &[u8], &[u8]); 7] = [
        (&[], &[], &[], 2, b"", b"usage: word 1\n"),
        (&["walk"], &[], &[], 2, b"", b"usage: word 1\n"),
        (&["run", "--trace"], &[], &[], 2, b"", b"usage: word 2\n"),
        (&["run", "run", "run"], &[], &[], 2, b"", b"usage: word 2\n"),
        (&["plan", "run"], &[], &[], 2, b"", b"usage: word 2\n"),
        (&["run"], &[1], &[], 3, b"", b"read fault\n"),
        (&["run"], &[], &[1], 4, b"x 2", b"write fault\n"),
    ];
    for (words, read_faults, write_faults, status, out, line) in rows {
        let ran = run(rt.alloc(), words, INCREMENT, read_faults, write_faults)?;
        assert_eq!(rt; ran.status, status);
        assert_eq!(rt; ran.out.as_slice(), out);
        assert_eq!(rt; ran.err.as_slice(), line);
    }
    Ok(())
}

/// A unit of the first loop in the first step.
fn unit(position: u32) -> Unit {
    Unit {
        step: 0,
        loop_no: 0,
        position,
    }
}

#[test]
fn each_outcome_has_its_status(rt: HostRuntime) -> Result<(), Fail> {
    let place = Place { line: 1, column: 1 };
    let kind = TextKind::End;
    let name = Name::copy(rt.alloc(), b"x")?;
    let (loop_no, iteration, site, value) = (0, -1, 1, -1);
    let (p, q) = (unit(0), unit(1));
    let rows = [
        (Outcome::Done, 0),
        (Outcome::Memory, 1),
        (Outcome::Usage { word: 1 }, 2),
        (Outcome::ReadFault, 3),
        (Outcome::WriteFault, 4),
        (Outcome::Text { place, kind }, 5),
        (Outcome::Kernel { place, rule: 4 }, 6),
        (
            Outcome::Input {
                name,
                place: 0,
                rule: 1,
            },
            7,
        ),
        (
            Outcome::Range {
                loop_no,
                iteration,
                site,
                value,
            },
            8,
        ),
        (Outcome::Script { step: 1, rule: 2 }, 9),
        (Outcome::Illegal { step: 1, p, q }, 10),
        (
            Outcome::Limit {
                what: What::Bytes,
                count: 67_108_865,
            },
            12,
        ),
    ];
    for (outcome, wanted) in &rows {
        assert_eq!(rt; status(outcome), *wanted);
    }
    Ok(())
}
