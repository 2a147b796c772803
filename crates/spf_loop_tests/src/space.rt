use spf_base::Name;
use spf_space::{ArrayShape, LoopShape, Shape, ordinals_are_textual_order};
use sqlite_items::Items;
use std::alloc::Global;
use std::test::Fail;

/// Two steps of three loops, of which the second has no iterations, over one array.
fn three_loops(alloc: Global) -> Result<Shape, Fail> {
    let mut loops = Items::new(alloc);
    loops.push(LoopShape {
        name: Name::copy(alloc, b"first")?,
        lower: 4,
        extent: 2,
    })?;
    loops.push(LoopShape {
        name: Name::copy(alloc, b"none")?,
        lower: 0,
        extent: 0,
    })?;
    loops.push(LoopShape {
        name: Name::copy(alloc, b"last")?,
        lower: -1,
        extent: 3,
    })?;
    let mut arrays = Items::new(alloc);
    arrays.push(ArrayShape {
        name: Name::copy(alloc, b"x")?,
        start: 0,
        length: 6,
    })?;
    Ok(Shape::new(2, loops, arrays))
}

#[test]
fn units_go_by_step_then_loop_then_position(rt: HostRuntime) -> Result<(), Fail> {
    // The step, the loop and the position of each unit.
    let table = [
        (0, 0, 0),
        (0, 0, 1),
        (0, 2, 0),
        (0, 2, 1),
        (0, 2, 2),
        (1, 0, 0),
        (1, 0, 1),
        (1, 2, 0),
        (1, 2, 1),
        (1, 2, 2),
    ];
    let shape = three_loops(rt.alloc())?;
    assert_eq!(rt; (shape.steps, shape.per_step(), shape.units()), (2, 5, 10));
    assert_eq!(rt; (shape.loops.len(), shape.arrays.len()), (3, 1));
    // So that the prover knows that a unit at a place is one of the shape, which `ordinal` requires.
    ordinals_are_textual_order();
    for ordinal in 0..shape.units() {
        let unit = shape.split(ordinal);
        let numbers = (unit.step, unit.loop_no, unit.position);
        assert_eq!(rt; table.get(ordinal as usize).copied(), Some(numbers));
        assert_eq!(rt; shape.ordinal(&unit), ordinal);
    }
    Ok(())
}
