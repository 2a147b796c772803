//! Where orders stand in a plan, and what grows from a seed.

ghost use Rattle.std.specs.Prelude.{◌≡◌, ◌<◌, ◌≤◌, ℕ, List, All, IfOk, Ok, length};
ghost use Rattle.spf_input.specs.Answer.{IsBundleAnswer};
ghost use Rattle.spf_store.specs.Accepted.{IsAccepted};
ghost use Rattle.spf_plan.specs.Taken.{BelongTogether};
ghost use Rattle.spf_space.specs.Layout.{cells_in, iterations};
ghost use Rattle.spf_touch.specs.Frame.{IsTouched};
ghost use Rattle.spf_touch.specs.Repeated.{touches_at};

use spf_access::{accesses, touched_elements_are_cells};
use spf_grow::{GrowFault, grow};
use spf_input::{Bundle, kept_input_is_accepted, read_bundle};
use spf_layers::Layers;
use spf_plan::plan;
use spf_script::resolve;
use spf_space::Shape;
use spf_store::shape;
use spf_touch::Touches;
use std::alloc::Global;
use std::process::Abort;
use std::test::Fail;

/// A bundle, its shape, and what its iterations touch.
#[derive(Drop)]
struct Walked {
    bundle: Bundle,
    shape: Shape,
    touches: Touches,
}

/// So that the prover knows what `accesses` asks of a bundle that was read.
fn accepted(bundle: &Bundle)
    requires { (bytes : List ℕ) × IsBundleAnswer bytes (Ok bundle.now) }
    ensures { IsAccepted bundle.now.env bundle.now.kernel }
{
    kept_input_is_accepted();
    let _tree = bundle.kernel.tree();
}

fn walk_bundle(alloc: Global, text: &[u8]) -> Result<Walked, Fail>
    requires { length text.now ≤ 67108864 }
    ensures lists { IfOk result (λ walked. length walked.touches ≡ iterations walked.shape.loops) }
    ensures inside { IfOk result (λ walked. (u e : ℕ) → IsTouched (touches_at walked.touches u) e → e < cells_in walked.shape.arrays) }
{
    touched_elements_are_cells();
    let bundle = match read_bundle(alloc, text) {
        Ok(bundle) => bundle,
        Err(fault) => return Err(Fail::from(fault)),
    };
    accepted(&bundle);
    let shape = shape(alloc, &bundle.kernel, &bundle.env)?;
    let touches = accesses(alloc, &bundle.kernel, &bundle.env, &shape)?;
    Ok(Walked {
        bundle,
        shape,
        touches,
    })
}

const SWEEP: &[u8] = b"spf 1\n\
kernel { param n, z; index ia[n + 1] in 0 .. z + 1 monotone; index ja[z] in 0 .. n; data u[n], b[n], a[z]; steps 2; \
loop sweep (i in 0 .. n) { u[i] = b[i]; for p in ia[i] .. ia[i + 1] { if ja[p] != i { u[i] += a[p] * u[ja[p]]; } } } }\n\
script { }\n\
input { n = 3; z = 7; ia = 0 2 5 7; ja = 0 1 0 1 2 1 2; u = 0 0 0; b = 1 2 3; a = 9 1 1 9 1 1 9; }\n";

/// What grows from a seed of the three iterations of the sweep in its first step, in two parts: the number of each unit, or
/// the first pair along which the seed falls.
fn grown(rt: &impl Abort, alloc: Global, seed: &[u32]) -> Result<Result<Vec<u32>, (u32, u32)>, Fail>
    requires three { length seed.now ≡ 3 }
    requires below { All (λ (part : ℕ). part < 2) seed.now }
{
    let walked = walk_bundle(alloc, SWEEP)?;
    let shape = &walked.shape;
    assert!(rt; shape.steps == 2);
    assert!(rt; shape.loops.len() == 1);
    assert!(rt; shape.loops.as_slice()[0].extent == 3);
    match grow(alloc, &walked.touches, shape, seed, 0, 0, 2) {
        Ok(numbers) => Ok(Ok(numbers)),
        Err(GrowFault::Reversed { p, q }) => Ok(Err((p, q))),
        Err(fault) => Err(Fail::from(fault)),
    }
}

#[test]
fn numbers_grow_from_a_seed_that_does_not_fall(rt: HostRuntime) -> Result<(), Fail> {
    // The tiles of both steps.
    match grown(&rt, rt.alloc(), [0, 0, 1].as_slice())? {
        Ok(numbers) => assert_eq!(rt; numbers.as_slice(), [0, 0, 1, 0, 1, 1].as_slice()),
        Err(_) => assert!(rt; false),
    }
    match grown(&rt, rt.alloc(), [0, 1, 1].as_slice())? {
        Ok(numbers) => assert_eq!(rt; numbers.as_slice(), [0, 1, 1, 1, 1, 1].as_slice()),
        Err(_) => assert!(rt; false),
    }
    Ok(())
}

#[test]
fn a_seed_that_falls_is_refused_with_the_first_pair(rt: HostRuntime) -> Result<(), Fail> {
    match grown(&rt, rt.alloc(), [0, 1, 0].as_slice())? {
        Ok(_) => assert!(rt; false),
        Err(pair) => assert_eq!(rt; pair, (1, 2)),
    }
    Ok(())
}

const KERNEL: &[u8] =
    b"spf 1 kernel { param n, m; index left[m] in 0 .. n; index right[m] in 0 .. n; data x[n], vx[n], fx[n]; steps 3; \
loop move (i in 0 .. n) { x[i] += vx[i]; fx[i] = 0; } \
loop force (j in 0 .. m) { fx[left[j]] += x[right[j]] - x[left[j]]; fx[right[j]] += x[left[j]] - x[right[j]]; } \
loop kick (i in 0 .. n) { vx[i] += fx[i]; } } ";

const INPUT: &[u8] =
    b" input { n = 4; m = 5; left = 2 0 1 0 1; right = 3 1 2 3 3; x = 0 10 20 30; vx = 1 2 3 4; fx = 0 0 0 0; }";

fn built(alloc: Global, touches: &Touches, shape: &Shape) -> Result<Layers, Fail>
    requires lists { length touches.now ≡ iterations shape.now.loops }
    requires inside { (u e : ℕ) → IsTouched (touches_at touches.now u) e → e < cells_in shape.now.arrays }
    ensures { IfOk result (λ layers. BelongTogether layers touches.now shape.now) }
{
    Ok(Layers::build(alloc, touches, shape)?)
}

/// The new position of each source position of the pairs in the plan that a script leaves.
fn order_of_pairs(rt: &impl Abort, alloc: Global, script: &[u8]) -> Result<Vec<u32>, Fail> {
    let mut text = Vec::from_slice(alloc, KERNEL)?;
    text.extend_from_slice(script)?;
    text.extend_from_slice(INPUT)?;
    assert!(rt; text.len() <= 67_108_864);
    let Walked {
        bundle,
        shape,
        touches,
    } = walk_bundle(alloc, text.as_slice())?;
    let steps = resolve(alloc, &bundle.script, &shape, 0)?;
    let layers = built(alloc, &touches, &shape)?;
    let plan = plan(alloc, &layers, &touches, &shape, steps.as_slice())?;
    let orders = plan.places().orders.as_slice();
    assert!(rt; orders.len() == 3 && orders[1].len() == 5);
    let mut order = Vec::new(alloc);
    for position in 0..5 {
        order.push(orders[1].at(position))?;
    }
    Ok(order)
}

#[test]
fn an_order_by_all_places_stands_in_the_plan(rt: HostRuntime) -> Result<(), Fail> {
    // The pairs run in the order 1 2 3 4 0.
    let order = order_of_pairs(&rt, rt.alloc(), b"script { lexsort force by x; }")?;
    assert_eq!(rt; order.as_slice(), [4, 0, 1, 2, 3].as_slice());
    Ok(())
}

#[test]
fn an_order_by_buckets_stands_in_the_plan(rt: HostRuntime) -> Result<(), Fail> {
    // The pairs run in the order 1 0 2 3 4.
    let order = order_of_pairs(&rt, rt.alloc(), b"script { bucket force by x size 2; }")?;
    assert_eq!(rt; order.as_slice(), [1, 0, 2, 3, 4].as_slice());
    Ok(())
}
