use spf_perm::{Perm, PermFault};
use std::test::Fail;

/// Whether the permutation takes the elements to these places, in turn.
pub(crate) fn takes_to(perm: &Perm, places: &[u32]) -> bool {
    if perm.len() as usize != places.len() {
        return false;
    }
    for old in 0..perm.len() {
        if perm.at(old) != places[old as usize] {
            return false;
        }
    }
    true
}

#[test]
fn a_permutation_is_inverted_and_composed(rt: HostRuntime) -> Result<(), Fail> {
    let swap = Perm::of_list(rt.alloc(), vec![in rt.alloc(); 1, 0, 2]?)?;
    let after = Perm::of_list(rt.alloc(), vec![in rt.alloc(); 2, 0, 1]?)?;
    assert!(rt; takes_to(&swap, &[1, 0, 2]));
    assert!(rt; takes_to(&swap.inverse(rt.alloc())?, &[1, 0, 2]));
    assert!(rt; takes_to(&after.inverse(rt.alloc())?, &[1, 2, 0]));
    assert_eq!(rt; (swap.len(), after.len()), (3, 3));
    let both = swap.then(rt.alloc(), &after)?;
    assert!(rt; takes_to(&both, &[0, 2, 1]));
    assert_eq!(rt; Perm::identity(rt.alloc(), 0)?.len(), 0);
    assert!(rt; takes_to(&Perm::identity(rt.alloc(), 2)?, &[0, 1]));
    Ok(())
}

#[test]
fn a_list_that_is_no_permutation_is_refused_at_its_first_fault(
    rt: HostRuntime,
) -> Result<(), Fail> {
    let outside = Perm::of_list(rt.alloc(), vec![in rt.alloc(); 0, 3, 1]?);
    assert!(rt; matches!(outside, Err(PermFault::OutOfRange { place: 1 })));
    let repeated = Perm::of_list(rt.alloc(), vec![in rt.alloc(); 1, 0, 1]?);
    assert!(rt;
        matches!(
            repeated,
            Err(PermFault::NotPerm {
                first: 0,
                second: 2
            })
        )
    );
    Ok(())
}

#[test]
fn cells_move_to_the_places_of_their_elements(rt: HostRuntime) -> Result<(), Fail> {
    let perm = Perm::of_list(rt.alloc(), vec![in rt.alloc(); 2, 0, 1]?)?;
    let mut moved = [0; 3];
    assert_eq!(rt; perm.len(), 3);
    perm.apply_to(&[7, 8, 9], &mut moved);
    assert_eq!(rt; moved, [8, 9, 7]);
    Ok(())
}
