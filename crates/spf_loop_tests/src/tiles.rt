ghost use Rattle.std.specs.Prelude.{◌≡◌, ◌≤◌, [], ◌∷◌, ◌++◌, IfOk, IfSome, map, vec_items};
ghost use Rattle.spf_core.specs.History.{IsHistory};

use spf_core::{Event, Job, Order, State, serial};
use spf_touch::{Class, Op, OpUnits, Touch, Units};
use std::alloc::Global;
use std::process::Abort;
use std::test::Fail;

/// Lists with these items.
fn lists<T: Copy>(alloc: Global, rows: &[&[T]]) -> Result<Vec<Vec<T>>, Fail>
    ensures { IfOk result (λ lists. map vec_items lists.items ≡ map (λ row. row.now) rows.now) }
{
    let mut lists = Vec::new(alloc);
    for row in rows {
        lists.push(Vec::from_slice(alloc, row)?)?;
    }
    Ok(lists)
}

const READ_0: Touch = Touch {
    element: 0,
    class: Class::Read,
};

const READ_1: Touch = Touch {
    element: 1,
    class: Class::Read,
};

const READ_2: Touch = Touch {
    element: 2,
    class: Class::Read,
};

const WRITE_1: Touch = Touch {
    element: 1,
    class: Class::Write,
};

const ADD_0: Touch = Touch {
    element: 0,
    class: Class::Add,
};

const ADD_2: Touch = Touch {
    element: 2,
    class: Class::Add,
};

/// Two units that add into one element, in a tile each.
fn two_gains(alloc: Global) -> Result<Job<OpUnits>, Fail> {
    let units = lists(
        alloc,
        &[
            &[Op::Gain { to: 0, from: 1 }],
            &[Op::Gain { to: 0, from: 2 }],
        ],
    )?;
    let units = OpUnits::of(alloc, units)?;
    let tiles = lists(alloc, &[&[0], &[1]])?;
    let before = lists(alloc, &[&[], &[]])?;
    let feet = lists(alloc, &[&[ADD_0, READ_1], &[ADD_0, READ_2]])?;
    let cells = vec![in alloc; 10, 3, 4]?;
    Ok(Job::make(units, tiles, Order::of_lists(before), feet, cells))
}

/// A unit that writes what the next reads, and a third that adds into the same element as that, in a tile each.
fn three_units(alloc: Global) -> Result<Job<OpUnits>, Fail> {
    let put = Op::Put {
        to: 1,
        from: 0,
        plus: 5,
    };
    let gains = [Op::Gain { to: 2, from: 1 }, Op::Gain { to: 2, from: 0 }];
    let units = OpUnits::of(alloc, lists(alloc, &[&[put], &gains[..1], &gains[1..]])?)?;
    let tiles = lists(alloc, &[&[0], &[1], &[2]])?;
    let before = lists(alloc, &[&[], &[0], &[]])?;
    let feet = lists(
        alloc,
        &[&[READ_0, WRITE_1], &[READ_1, ADD_2], &[READ_0, ADD_2]],
    )?;
    let cells = vec![in alloc; 3, 4, 10]?;
    Ok(Job::make(units, tiles, Order::of_lists(before), feet, cells))
}

/// The choice-th of the events that may come next, counted from 0.
fn next_event(state: &State, tiles: u32, workers: u32, choice: u32) -> Option<Event>
    ensures { IfSome result (λ event. IsHistory state.now.order state.now.workers (state.now.events ++ event ∷ [])) }
{
    let mut left = choice;
    for worker in 1..=workers {
        for tile in 0..tiles {
            for event in [
                Event::Claim { worker, tile },
                Event::Publish { worker, tile },
            ] {
                if state.can(&event) {
                    if left == 0 {
                        return Some(event);
                    }
                    left -= 1;
                }
            }
        }
    }
    None
}

/// Plays the history of this number, whose digits in base 6 are the choices among the events that may come next. At its end
/// the cells are those of `serial`. False where some digit is no choice.
fn play(
    rt: &impl Abort,
    alloc: Global,
    job: &Job<OpUnits>,
    workers: u32,
    number: u32,
) -> Result<bool, Fail>
    requires { 1 ≤ workers }
{
    let tiles = job.tiles();
    let mut state = State::start(alloc, job, workers)?;
    let mut rest = number;
    for _turn in 0..2 * tiles {
        assert!(rt; next_event(&state, tiles, workers, 6).is_none());
        match next_event(&state, tiles, workers, rest % 6) {
            Some(event) => state.step(job, &event),
            None => return Ok(false),
        }
        rest /= 6;
    }
    let mut cells = Vec::from_slice(alloc, job.cells())?;
    serial(job, cells.as_mut_slice());
    assert_eq!(rt; state.cells(), cells.as_slice());
    Ok(true)
}

/// How many of the histories below this number there are.
fn played(
    rt: &impl Abort,
    alloc: Global,
    job: &Job<OpUnits>,
    workers: u32,
    numbers: u32,
) -> Result<u32, Fail>
    requires { 1 ≤ workers }
{
    let mut full = 0;
    for number in 0..numbers {
        if play(rt, alloc, job, workers, number)? {
            full += 1;
        }
    }
    Ok(full)
}

#[test]
fn every_interleaving_gives_what_serial_gives(rt: HostRuntime) -> Result<(), Fail> {
    let two = two_gains(rt.alloc())?;
    assert_eq!(rt; played(&rt, rt.alloc(), &two, 2, 1296)?, 16);
    assert_eq!(rt; played(&rt, rt.alloc(), &two, 3, 1296)?, 42);
    let three = three_units(rt.alloc())?;
    assert_eq!(rt; played(&rt, rt.alloc(), &three, 2, 46656)?, 64);
    assert_eq!(rt; played(&rt, rt.alloc(), &three, 3, 46656)?, 273);
    for (job, wanted) in [(&two, [17, 3, 4]), (&three, [3, 8, 21])] {
        let mut cells = Vec::from_slice(rt.alloc(), job.cells())?;
        serial(job, cells.as_mut_slice());
        assert_eq!(rt; cells.as_slice(), wanted.as_slice());
    }
    Ok(())
}

#[test]
fn a_held_copy_is_blended_in_after_another_publication(rt: HostRuntime) -> Result<(), Fail> {
    let job = &two_gains(rt.alloc())?;
    let mut state = State::start(rt.alloc(), job, 2)?;
    let table = [
        (Event::Claim { worker: 1, tile: 0 }, [10, 3, 4]),
        (Event::Claim { worker: 2, tile: 1 }, [10, 3, 4]),
        (Event::Publish { worker: 2, tile: 1 }, [14, 3, 4]),
        (Event::Publish { worker: 1, tile: 0 }, [17, 3, 4]),
    ];
    for (event, cells) in table {
        assert!(rt; state.can(&event));
        state.step(job, &event);
        assert!(rt; !state.can(&Event::Claim { worker: 1, tile: 1 }));
        assert_eq!(rt; state.cells(), cells.as_slice());
    }
    Ok(())
}

#[test]
fn a_tile_is_worked_on_in_an_empty_copy(rt: HostRuntime) -> Result<(), Fail> {
    let job = two_gains(rt.alloc())?;
    assert_eq!(rt; job.tiles(), 2);
    let mut copied = job.room(rt.alloc())?;
    let mut cells = Vec::from_slice(rt.alloc(), job.cells())?;
    job.copy(1, job.cells(), &mut copied);
    job.work(1, &mut copied);
    job.merge(1, &copied, cells.as_mut_slice());
    assert_eq!(rt; cells.as_slice(), [14, 3, 4].as_slice());
    Ok(())
}
