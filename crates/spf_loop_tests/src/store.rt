ghost use Rattle.std.specs.Prelude.{◌≡◌, IfOk, length};

use spf_base::Name;
use spf_space::ArrayShape;
use spf_store::Store;
use spf_touch::Cells;
use sqlite_items::Items;
use std::alloc::Global;
use std::test::Fail;

/// Five cells in three arrays, of which the second has none.
fn three_arrays(alloc: Global) -> Result<Store, Fail>
    ensures { IfOk result (λ store. length store.cells ≡ 5) }
{
    let mut arrays = Items::new(alloc);
    arrays.push(ArrayShape {
        name: Name::copy(alloc, b"x")?,
        start: 0,
        length: 2,
    })?;
    arrays.push(ArrayShape {
        name: Name::copy(alloc, b"none")?,
        start: 2,
        length: 0,
    })?;
    arrays.push(ArrayShape {
        name: Name::copy(alloc, b"y")?,
        start: 2,
        length: 3,
    })?;
    Ok(Store {
        cells: vec![in alloc; 10, 20, 30, 40, 50]?,
        arrays,
    })
}

#[test]
fn an_element_is_one_place_of_one_array(rt: HostRuntime) -> Result<(), Fail> {
    // The array and the place of each element.
    let table = [(0, 0), (0, 1), (2, 0), (2, 1), (2, 2)];
    let store = three_arrays(rt.alloc())?;
    for element in 0..5 {
        let (array, place) = store.unflat(element);
        assert_eq!(rt; table.get(element as usize).copied(), Some((array, place)));
        assert_eq!(rt; store.flat(array, place), element);
    }
    Ok(())
}

#[test]
fn a_cell_that_is_set_has_its_number_and_others_keep_theirs(rt: HostRuntime) -> Result<(), Fail> {
    let mut store = three_arrays(rt.alloc())?;
    store.set(3, -7);
    assert_eq!(rt; (store.cell(2), store.cell(3), store.get(4)), (30, -7, 50));
    Ok(())
}
