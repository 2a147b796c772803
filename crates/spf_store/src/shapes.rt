//! How large a kernel's loops and arrays are.

ghost use Rattle.std.specs.Prelude.{◌≡◌, ◌+◌, ◌++◌, ◌<◌, ◌^◌, [], ◌∷◌, pos, map, flat_map, All, IfOk, OnOk};
ghost use Rattle.spf_term.specs.Bounded.{AreWithin, IsBounded};
ghost use Rattle.spf_kernel.specs.Bounded.{IsBoundedDecl, IsBoundedLoop};
ghost use Rattle.spf_space.specs.Layout.{iterations};
ghost use Rattle.spf_store.specs.Accepted.{IsAccepted, IsBoundedBy, IsFromTo, IsSize};
ghost use Rattle.spf_store.specs.Shaped.{IsShapeAnswer, array_shapes, data_in, loop_shape, outer_value, size, sizes};

use crate::numbers::accepted_numbers_are_small;
use crate::ranges::extent;
use crate::terms::term_value;
use spf_base::{Name, NoMemory};
use spf_kernel::Kernel;
use spf_kernel::tree::{DataDecl, Decl, Loop};
use spf_space::{ArrayShape, LoopShape, Shape};
use spf_term::{Env, Term, bounded_terms_are_small};
use sqlite_items::Items;
use std::alloc::Global;
use thiserror::Error;

/// The most units that a shape may have.
const UNIT_LIMIT: u64 = 4_194_304;

/// Why a kernel has no shape.
#[derive(Debug, Drop, Error)]
pub enum ShapeFault {
    /// It has this many units, which are more than 4,194,304.
    #[error("units")]
    Units { count: u64 },
    #[error("out of memory")]
    Memory,
}

impl From<NoMemory> for ShapeFault {
    ghost use Rattle.spf_store.specs.declared.shapes.ShapeFault.TheVariants.{Memory};

    ghost from_gives = { λ _ fault. fault ≡ Memory };

    fn from(_error: NoMemory) -> ShapeFault {
        ShapeFault::Memory
    }
}

/// The value of an expression in which no variable stands. Linear in it.
pub fn outer_value(env: &Env, term: &Term) -> i64
    requires within { AreWithin env.now [] }
    requires bounded { IsBounded term.now }
    ensures { result ≡ outer_value env.now term.now }
{
    bounded_terms_are_small();
    term_value(env, &[], term)
}

/// The same of one that isn't below 0.
fn size(env: &Env, term: &Term) -> u32
    requires within { AreWithin env.now [] }
    requires bounded { IsBounded term.now }
    requires small { IsFromTo (pos 0) (pos 4194304) (outer_value env.now term.now) }
    ensures { result ≡ size env.now term.now }
{
    outer_value(env, term) as u32
}

/// The shape of a loop. Linear in its bounds.
fn loop_shape(alloc: Global, env: &Env, each: &Loop) -> Result<LoopShape, NoMemory>
    requires within { AreWithin env.now [] }
    requires low { IsBounded each.now.low }
    requires high { IsBounded each.now.high }
    requires bounded { IsBoundedBy env.now each.now }
    ensures { IfOk result (λ shape. shape ≡ loop_shape env.now each.now) }
{
    let lower = outer_value(env, &each.low);
    let upper = outer_value(env, &each.high);
    Ok(LoopShape {
        name: Name::copy(alloc, each.name.bytes())?,
        lower,
        extent: extent(&(lower..upper)),
    })
}

fn loop_shapes(alloc: Global, env: &Env, loops: &[Loop]) -> Result<Items<LoopShape>, NoMemory>
    requires within { AreWithin env.now [] }
    requires small { All IsBoundedLoop loops.now }
    requires bounded { All (IsBoundedBy env.now) loops.now }
    ensures { IfOk result (λ shapes. shapes ≡ map (loop_shape env.now) loops.now) }
{
    let mut shapes = Items::new(alloc);
    for each in loops {
        shapes.push(loop_shape(alloc, env, each)?)?;
    }
    Ok(shapes)
}

/// Arrays that lie one behind the other, and where the last of them ends.
#[derive(Drop)]
struct Laid {
    shapes: Items<ArrayShape>,
    end: u32,
}

/// Lays the array behind those that lie there.
fn lay(alloc: Global, env: &Env, laid: &mut Laid, array: &DataDecl) -> Result<(), NoMemory>
    requires within { AreWithin env.now [] }
    requires bounded { IsBounded array.now.size }
    requires size { IsSize env.now array.now.size }
    requires few { laid.old.end + size env.now array.now.size < 2 ^ 32 }
    ensures shapes { OnOk result (laid.new.shapes ≡ laid.old.shapes ++ array_shapes env.now laid.old.end (array.now ∷ [])) }
    ensures end { OnOk result (laid.new.end ≡ laid.old.end + size env.now array.now.size) }
{
    let length = size(env, &array.size);
    laid.shapes.push(ArrayShape {
        name: Name::copy(alloc, array.name.bytes())?,
        start: laid.end,
        length,
    })?;
    laid.end += length;
    Ok(())
}

fn lay_all(alloc: Global, env: &Env, laid: &mut Laid, arrays: &[DataDecl]) -> Result<(), NoMemory>
    requires within { AreWithin env.now [] }
    requires bounded { All (λ array. IsBounded array.size) arrays.now }
    requires sizes { All (λ array. IsSize env.now array.size) arrays.now }
    requires few { laid.old.end + sizes env.now arrays.now < 2 ^ 32 }
    ensures shapes { OnOk result (laid.new.shapes ≡ laid.old.shapes ++ array_shapes env.now laid.old.end arrays.now) }
    ensures end { OnOk result (laid.new.end ≡ laid.old.end + sizes env.now arrays.now) }
{
    for array in arrays {
        lay(alloc, env, laid, array)?;
    }
    Ok(())
}

/// The data arrays that a declaration names.
fn data_in(decl: &Decl) -> &[DataDecl]
    ensures { result.now ≡ data_in decl.now }
{
    match decl {
        Decl::Values { arrays } => arrays.as_slice(),
        Decl::Params { .. } | Decl::Index { .. } => &[],
    }
}

/// The data arrays of these declarations, one behind the other. Linear in the declarations and in their names.
pub fn array_shapes(alloc: Global, env: &Env, decls: &[Decl]) -> Result<Items<ArrayShape>, NoMemory>
    requires within { AreWithin env.now [] }
    requires bounded { All IsBoundedDecl decls.now }
    requires sizes { All (λ array. IsSize env.now array.size) (flat_map data_in decls.now) }
    requires few { sizes env.now (flat_map data_in decls.now) < 2 ^ 32 }
    ensures { IfOk result (λ shapes. shapes ≡ array_shapes env.now 0 (flat_map data_in decls.now)) }
{
    let mut laid = Laid {
        shapes: Items::new(alloc),
        end: 0,
    };
    for decl in decls {
        lay_all(alloc, env, &mut laid, data_in(decl))?;
    }
    Ok(laid.shapes)
}

/// How many iterations these loops have together.
fn iterations(loops: &[LoopShape]) -> u32
    requires { iterations loops.now < 2 ^ 32 }
    ensures { result ≡ iterations loops.now }
{
    loops.iter().map(|each| each.extent).sum()
}

/// The shape of a kernel with these parameters and index arrays, or how many units it has, where those are more than
/// there may be. Linear in the declarations, the bounds of the loops, and their names.
pub fn shape(alloc: Global, kernel: &Kernel, env: &Env) -> Result<Shape, ShapeFault>
    requires accepted { IsAccepted env.now kernel.now }
    ensures { IsShapeAnswer env.now kernel.now result }
{
    accepted_numbers_are_small();
    let tree = kernel.tree();
    let steps = size(env, &tree.steps);
    let loops = loop_shapes(alloc, env, tree.loops.as_slice())?;
    let arrays = array_shapes(alloc, env, tree.decls.as_slice())?;
    let count = u64::from(steps) * u64::from(iterations(loops.as_slice()));
    if count > UNIT_LIMIT {
        return Err(ShapeFault::Units { count });
    }
    Ok(Shape::new(steps, loops, arrays))
}
