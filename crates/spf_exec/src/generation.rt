//! The bodies of a kernel's loops in composed terms.

ghost use Rattle.std.specs.Prelude.{◌≡◌, ◌+◌, ◌<◌, ◌≤◌, ◌^◌, IfOk, OnOk, length};
ghost use Rattle.spf_kernel.specs.Bounded.{IsBoundedLoop, IsBoundedTree};
ghost use Rattle.spf_kernel.specs.Kept.{KeepsLoop};
ghost use Rattle.spf_kernel.specs.Named.{IsNamed, counts_in, named};
ghost use Rattle.spf_exec.specs.Composed.{first_packing, order_of};
ghost use Rattle.spf_exec.specs.Generated.{bodies_from, body_of, program_of};

use crate::program::{Body, Moved, Program};
use crate::rewriting::{Placing, rewrite_items};
use crate::terms::iteration;
use spf_base::NoMemory;
use spf_kernel::Kernel;
use spf_kernel::tree::{Decl, Loop, Tree};
use spf_rel::compositions_stay_light;
use spf_term::numbers_are_within_the_size;
use sqlite_items::Items;
use std::alloc::Global;

/// How many index arrays are declared. Linear in the declarations.
fn index_arrays(decls: &[Decl]) -> usize
    ensures { result ≡ (counts_in decls.now).tables }
{
    let mut count = 0;
    for decl in decls {
        if let Decl::Index { .. } = decl {
            count += 1;
        }
    }
    count
}

/// The body of the loop of this number.
fn body(
    alloc: Global,
    tree: &Tree,
    moved: &Moved,
    orders: u32,
    loop_no: usize,
    each: &Loop,
) -> Result<Body, NoMemory>
    requires named { KeepsLoop (named (counts_in tree.now.decls)) each.now }
    requires bounded { IsBoundedLoop each.now }
    requires arrays { (counts_in tree.now.decls).arrays ≤ 64 }
    requires tables { (counts_in tree.now.decls).tables ≤ 64 }
    requires few { length tree.now.loops ≤ 32 }
    requires orders { orders ≡ (counts_in tree.now.decls).tables }
    requires inside { loop_no < length tree.now.loops }
    ensures { IfOk result (λ made. made ≡ body_of tree.now moved.now loop_no each.now) }
{
    compositions_stay_light();
    numbers_are_within_the_size();
    let moves = moved.loops.as_slice();
    let iteration = iteration(alloc, moves, loop_no, orders + loop_no as u32, &each.low)?;
    let placing = Placing {
        alloc,
        iteration: &iteration,
        arrays: moved.arrays.as_slice(),
        packings: orders + tree.loops.len() as u32,
    };
    let mut terms = Items::new(alloc);
    let items = rewrite_items(&placing, each.items.as_slice(), &mut terms)?;
    Ok(Body { terms, items })
}

fn bodies(alloc: Global, tree: &Tree, moved: &Moved, orders: u32) -> Result<Items<Body>, NoMemory>
    requires named { IsNamed tree.now }
    requires bounded { IsBoundedTree tree.now }
    requires orders { orders ≡ (counts_in tree.now.decls).tables }
    ensures { IfOk result (λ made. made ≡ bodies_from tree.now moved.now 0 tree.now.loops) }
{
    let mut bodies = Items::new(alloc);
    for (loop_no, each) in tree.loops.as_slice().iter().enumerate() {
        bodies.push(body(alloc, tree, moved, orders, loop_no, each)?)?;
    }
    Ok(bodies)
}

/// The composed terms of each loop, and its items with them. It makes a composition for each place of a body, and takes memory
/// for each term twice.
pub fn generate(alloc: Global, kernel: &Kernel, moved: &Moved) -> Result<Program, NoMemory>
    ensures program { IfOk result (λ program. program ≡ program_of kernel.now moved.now) }
{
    let tree = kernel.tree();
    let orders = index_arrays(tree.decls.as_slice());
    let loops = bodies(alloc, tree, moved, orders as u32)?;
    Ok(Program { loops })
}
