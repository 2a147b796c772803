//! What kernels are printed as, and the names in their trees.

use spf_kernel::tree::{Assign, Item};
use spf_kernel::{parse, print};
use spf_lex::tokens;
use spf_term::{Atom, Mono};
use std::test::Fail;

/// Kernels that are known well, what they are printed as, and how many data sites they have.
const KERNELS: [(&[u8], &[u8], u32); 10] = [
    (
        b"kernel { data x[2]; steps 1; }",
        b"kernel { data x [ 2 ] ; steps 1 ; }",
        0,
    ),
    (
        b"kernel { data x[2]; steps 1; loop a (i in 0 .. 2) { x[i] = 2 * (x[0] - (x[1])); } }",
        b"kernel { data x [ 2 ] ; steps 1 ; loop a ( i in 0 .. 2 ) { x [ i ] = 2 * ( x [ 0 ] - ( x [ 1 ] ) ) ; } }",
        3,
    ),
    (
        b"kernel { param n; data x[n]; steps 1; loop a (i in 0 .. n) { x[i] = x[i] + 1; } }",
        b"kernel { param n ; data x [ n ] ; steps 1 ; loop a ( i in 0 .. n ) { x [ i ] = x [ i ] + 1 ; } }",
        2,
    ),
    (
        b"kernel { param n, m; index left[m] in 0 .. n; index right[m] in 0 .. n; data x[n], vx[n], fx[n]; steps 4; \
loop move (i in 0 .. n) { x[i] += vx[i]; fx[i] = 0; } \
loop force (j in 0 .. m) { fx[left[j]] += x[right[j]] - x[left[j]]; fx[right[j]] += x[left[j]] - x[right[j]]; } \
loop kick (i in 0 .. n) { vx[i] += fx[i]; } }",
        b"kernel { param n , m ; index left [ m ] in 0 .. n ; index right [ m ] in 0 .. n ; \
data x [ n ] , vx [ n ] , fx [ n ] ; steps 4 ; \
loop move ( i in 0 .. n ) { x [ i ] += vx [ i ] ; fx [ i ] = 0 ; } \
loop force ( j in 0 .. m ) { fx [ left [ j ] ] += x [ right [ j ] ] - x [ left [ j ] ] ; \
fx [ right [ j ] ] += x [ left [ j ] ] - x [ right [ j ] ] ; } \
loop kick ( i in 0 .. n ) { vx [ i ] += fx [ i ] ; } }",
        11,
    ),
    (
        b"kernel { param n, z; index ia[n + 1] in 0 .. z + 1 monotone; index ja[z] in 0 .. n; data u[n], b[n], a[z]; steps 4; \
loop sweep (i in 0 .. n) { u[i] = b[i]; for p in ia[i] .. ia[i + 1] { if ja[p] != i { u[i] += a[p] * u[ja[p]]; } } } }",
        b"kernel { param n , z ; index ia [ n + 1 ] in 0 .. z + 1 monotone ; index ja [ z ] in 0 .. n ; \
data u [ n ] , b [ n ] , a [ z ] ; steps 4 ; \
loop sweep ( i in 0 .. n ) { u [ i ] = b [ i ] ; for p in ia [ i ] .. ia [ i + 1 ] { \
if ja [ p ] != i { u [ i ] += a [ p ] * u [ ja [ p ] ] ; } } } }",
        5,
    ),
    (
        b"kernel { param n, m; index left[m] in 0 .. n; index right[m] in 0 .. n; data fx[n]; steps 1; \
loop a (j in 0 .. m) { fx[left[j]] += fx[right[j]]; } }",
        b"kernel { param n , m ; index left [ m ] in 0 .. n ; index right [ m ] in 0 .. n ; data fx [ n ] ; steps 1 ; \
loop a ( j in 0 .. m ) { fx [ left [ j ] ] += fx [ right [ j ] ] ; } }",
        2,
    ),
    (
        b"kernel { param n; index k[n] in 0 .. n; data x[n], y[n]; steps 1; loop a (i in 1 .. n) { x[i] += x[i - 1] + y[k[i]]; } }",
        b"kernel { param n ; index k [ n ] in 0 .. n ; data x [ n ] , y [ n ] ; steps 1 ; \
loop a ( i in 1 .. n ) { x [ i ] += x [ i - 1 ] + y [ k [ i ] ] ; } }",
        3,
    ),
    (
        b"kernel { param n, z; index ia[n + 1] in 0 .. z + 1 monotone; data a[z]; steps 1; \
loop rows (i in 0 .. n) { for p in ia[i] .. ia[i + 1] { a[p] = a[p] + 1; } } }",
        b"kernel { param n , z ; index ia [ n + 1 ] in 0 .. z + 1 monotone ; data a [ z ] ; steps 1 ; \
loop rows ( i in 0 .. n ) { for p in ia [ i ] .. ia [ i + 1 ] { a [ p ] = a [ p ] + 1 ; } } }",
        2,
    ),
    (
        b"kernel { param n, m; index p[m] in 0 .. n; index q[m] in 0 .. n; data x[n], r[n]; steps 4; \
loop flux (e in 0 .. m) { r[p[e]] += x[q[e]] - x[p[e]]; r[q[e]] += x[p[e]] - x[q[e]]; } \
loop relax (i in 0 .. n) { x[i] += r[i]; r[i] = 0; } }",
        b"kernel { param n , m ; index p [ m ] in 0 .. n ; index q [ m ] in 0 .. n ; data x [ n ] , r [ n ] ; steps 4 ; \
loop flux ( e in 0 .. m ) { r [ p [ e ] ] += x [ q [ e ] ] - x [ p [ e ] ] ; \
r [ q [ e ] ] += x [ p [ e ] ] - x [ q [ e ] ] ; } \
loop relax ( i in 0 .. n ) { x [ i ] += r [ i ] ; r [ i ] = 0 ; } }",
        9,
    ),
    (
        b"kernel { param n, m; index k[m] in -5 .. -3 + 2 * n strict; data x[4194304 + 4194304 + 1]; steps 4; \
loop sweep (i in 0 .. n) { for p in 0 .. i { if -p <= 0 { x[p] += -x[1 + k[i]] * 2; } } } }",
        b"kernel { param n , m ; index k [ m ] in - 5 .. 2 * n - 3 strict ; \
data x [ 4194304 + 4194304 + 1 ] ; steps 4 ; loop sweep ( i in 0 .. n ) { for p in 0 .. i { \
if - p <= 0 { x [ p ] += - x [ k [ i ] + 1 ] * 2 ; } } } }",
        2,
    ),
];

#[test]
fn known_kernels_are_printed_and_what_is_printed_stays_as_it_is(
    rt: HostRuntime,
) -> Result<(), Fail> {
    for (text, expected, sites) in KERNELS {
        for source in [text, expected] {
            assert!(rt; source.len() <= 67_108_864);
            let tokens = tokens(rt.alloc(), source)?;
            let (kernel, next) = parse(rt.alloc(), &tokens, 0)?;
            assert_eq!(rt; next, tokens.len());
            assert_eq!(rt; kernel.data_sites(), sites);
            let printed = print(rt.alloc(), &kernel)?;
            assert_eq!(rt; printed.as_slice(), expected);
        }
    }
    Ok(())
}

#[test]
fn names_are_numbers_of_their_kind_in_the_tree(rt: HostRuntime) -> Result<(), Fail> {
    let text = b"kernel { param n, m; index k[m] in 0 .. n; data x[1], y[1]; steps 1; \
loop a (i in 0 .. 1) { y[k[2 * m - 1 + 3] + i + 4] = 1; } }";
    let tokens = tokens(rt.alloc(), text)?;
    let (kernel, _) = parse(rt.alloc(), &tokens, 0)?;
    let [each] = kernel.tree().loops.as_slice() else {
        return Err(Fail::new("loops"));
    };
    let [Item::Assign(Assign { array: 1, sub, .. })] = each.items.as_slice() else {
        return Err(Fail::new("target"));
    };
    let [
        Mono {
            coef: 1,
            atom: Atom::App { fun: 0, arg },
        },
        Mono {
            coef: 1,
            atom: Atom::Var(0),
        },
    ] = sub.monos.as_slice()
    else {
        return Err(Fail::new("subscript"));
    };
    let [
        Mono {
            coef: 2,
            atom: Atom::Param(1),
        },
    ] = arg.monos.as_slice()
    else {
        return Err(Fail::new("argument"));
    };
    assert_eq!(rt; (sub.constant, arg.constant), (4, 2));
    Ok(())
}
