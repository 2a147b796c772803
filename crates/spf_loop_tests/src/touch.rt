use spf_touch::{Class, Op, OpUnits, Touch, TouchLists, Units, conflict};
use std::test::Fail;

#[test]
fn classes_blend_and_share_as_they_are_defined(rt: HostRuntime) {
    // A class, what becomes of 5 and 7, and whether it may share an element with a Read, a Write and an Add.
    let table = [
        (Class::Read, 5, [true, false, false]),
        (Class::Write, 7, [false, false, false]),
        (Class::Add, 12, [false, false, true]),
    ];
    for (class, blended, shares) in table {
        assert_eq!(rt; class.blend(5, 7), blended);
        assert_eq!(rt;
            class.blend(5, class.neutral()) == 5,
            !matches!(class, Class::Write)
        );
        assert_eq!(rt; class.is_reduction(), matches!(class, Class::Add));
        for (other, share) in [Class::Read, Class::Write, Class::Add]
            .into_iter()
            .zip(shares)
        {
            let here = [Touch { element: 4, class }];
            let there = [
                Touch {
                    element: 3,
                    class: Class::Write,
                },
                Touch {
                    element: 4,
                    class: other,
                },
            ];
            assert_eq!(rt; conflict(&here, &there), !share);
            assert!(rt; !conflict(&here, &there[..1]));
        }
    }
}

#[test]
fn a_unit_notes_each_touched_element_once(rt: HostRuntime) -> Result<(), Fail> {
    let gain = vec![in rt.alloc(); Op::Gain { to: 2, from: 0 }, Op::Gain { to: 2, from: 0 }]?;
    let put = vec![in rt.alloc();
        Op::Gain { to: 2, from: 0 },
        Op::Put {
            to: 1,
            from: 2,
            plus: 3
        },
    ]?;
    let units = OpUnits::of(rt.alloc(), vec![in rt.alloc(); gain, put]?)?;
    // A unit, the number of a touched element, that element, and its class.
    let table = [
        (0, 0, 0, 'r'),
        (0, 1, 2, 'a'),
        (1, 0, 0, 'r'),
        (1, 1, 2, 'w'),
        (1, 2, 1, 'w'),
    ];
    for (unit, nth, element, class) in table {
        assert!(rt; unit < units.count() && nth < units.touch_count(unit));
        let touch = units.touch(unit, nth);
        assert_eq!(rt; (touch.element, letter(touch.class)), (element, class));
    }
    Ok(())
}

fn letter(class: Class) -> char {
    match class {
        Class::Read => 'r',
        Class::Write => 'w',
        Class::Add => 'a',
    }
}

/// Whether these are the touched elements, in this order and with these classes.
fn are(touches: &[Touch], wanted: &[(u32, char)]) -> bool {
    touches.len() == wanted.len()
        && touches.iter().zip(wanted).all(|(touch, wanted)| (touch.element, letter(touch.class))
            == *wanted)
}

#[test]
fn accesses_are_noted_list_by_list(rt: HostRuntime) -> Result<(), Fail> {
    let mut lists = TouchLists::new(rt.alloc(), 4)?;
    lists.note(3, Class::Read)?;
    lists.note(1, Class::Add)?;
    lists.note(3, Class::Add)?;
    lists.close()?;
    lists.close()?;
    lists.note(3, Class::Add)?;
    lists.close()?;
    let touches = lists.finish();
    assert_eq!(rt; touches.locals(), 3);
    assert!(rt; are(touches.of(0), &[(3, 'w'), (1, 'a')]));
    assert!(rt; are(touches.of(1), &[]));
    assert!(rt; are(touches.of(2), &[(3, 'a')]));
    Ok(())
}
