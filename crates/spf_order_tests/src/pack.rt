ghost use Rattle.std.specs.Prelude.{◌≡◌, ◌<◌, ◌^◌, IfOk, Some, length, slice_get};
ghost use Rattle.spf_perm.specs.Perm.{IsPerm};
ghost use Rattle.spf_space.specs.Layout.{iterations};
ghost use Rattle.spf_space.specs.declared.shape.LoopShape.{LoopShape};
ghost use Rattle.spf_space.specs.InOrder.{ArePlacesIn};
ghost use Rattle.spf_pack.specs.Packs.{IsArrayOf};

use crate::perm::takes_to;
use spf_base::Name;
use spf_pack::{cpack, tilepack};
use spf_perm::Perm;
use spf_space::{ArrayShape, LoopShape, Places, Shape};
use spf_touch::{Class, TouchLists, Touches};
use sqlite_items::Items;
use std::alloc::Global;
use std::test::Fail;

/// One step of a loop of two iterations, over an array of five cells.
fn one_loop(alloc: Global) -> Result<Shape, Fail>
    ensures units { IfOk result (λ shape. (shape.steps ≡ 1) × (iterations shape.loops ≡ 2)) }
    ensures loops { IfOk result (λ shape. (length shape.loops ≡ 1) × ((each : LoopShape) → slice_get shape.loops 0 ≡ Some each → each.extent ≡ 2)) }
    ensures array { IfOk result (λ shape. IsArrayOf shape.arrays 5 0) }
{
    let mut loops = Items::new(alloc);
    loops.push(LoopShape {
        name: Name::copy(alloc, b"a")?,
        lower: 0,
        extent: 2,
    })?;
    let mut arrays = Items::new(alloc);
    arrays.push(ArrayShape {
        name: Name::copy(alloc, b"x")?,
        start: 0,
        length: 5,
    })?;
    Ok(Shape::new(1, loops, arrays))
}

/// The first iteration writes place 3, the second place 1.
fn two_writes(alloc: Global) -> Result<Touches, Fail>
    ensures { IfOk result (λ touches. length touches ≡ 2) }
{
    let mut lists = TouchLists::new(alloc, 5)?;
    lists.note(3, Class::Write)?;
    lists.close()?;
    lists.note(1, Class::Write)?;
    lists.close()?;
    Ok(lists.finish())
}

/// A permutation with these places.
fn perm(alloc: Global, places: &[u32]) -> Result<Perm, Fail>
    requires { length places.now < 2 ^ 32 }
    ensures { IfOk result (λ perm. (length perm ≡ length places.now) × IsPerm perm) }
{
    Ok(Perm::of_list(alloc, Vec::from_slice(alloc, places)?)?)
}

/// Two units in these tiles, in source order there.
fn places_in(alloc: Global, shape: &Shape, tiles: [u32; 2]) -> Result<Places, Fail>
    requires units { (shape.now.steps ≡ 1) × (iterations shape.now.loops ≡ 2) }
    requires loops { (length shape.now.loops ≡ 1) × ((each : LoopShape) → slice_get shape.now.loops 0 ≡ Some each → each.extent ≡ 2) }
    ensures { IfOk result (λ places. ArePlacesIn shape.now places) }
{
    let mut places = Places {
        tiles: Items::new(alloc),
        orders: Items::new(alloc),
    };
    places.tiles.push(tiles[0])?;
    places.tiles.push(tiles[1])?;
    places.orders.push(perm(alloc, &[0, 1])?)?;
    Ok(places)
}

/// The packings by the loop in this order, and by the units in these tiles.
fn packings(alloc: Global, turns: [u32; 2], present: [u32; 5]) -> Result<(Perm, Perm), Fail> {
    let shape = one_loop(alloc)?;
    let touches = two_writes(alloc)?;
    let order = perm(alloc, &turns)?;
    let places = places_in(alloc, &shape, turns)?;
    let now = [perm(alloc, &present)?];
    let by_loop = cpack(alloc, &touches, &shape, 0, &order, &[0], &now)?;
    let by_tiles = tilepack(alloc, &touches, &shape, &places, &[0], &now)?;
    Ok((by_loop, by_tiles))
}

#[test]
fn places_are_packed_in_the_order_of_their_first_touch(rt: HostRuntime) -> Result<(), Fail> {
    // Where the two iterations go, a position or a tile each, the present packing, and the new one.
    let table = [
        ([0, 1], [0, 1, 2, 3, 4], [2, 1, 3, 0, 4]),
        ([1, 0], [0, 1, 2, 3, 4], [2, 0, 3, 1, 4]),
        ([0, 1], [4, 3, 2, 1, 0], [4, 1, 3, 0, 2]),
    ];
    for (turns, present, wanted) in table {
        let (by_loop, by_tiles) = packings(rt.alloc(), turns, present)?;
        assert!(rt; takes_to(&by_loop, &wanted));
        assert!(rt; takes_to(&by_tiles, &wanted));
    }
    Ok(())
}
