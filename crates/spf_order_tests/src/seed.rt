use spf_seed::block;
use std::test::Fail;

#[test]
fn a_block_deals_runs_of_neighbours(rt: HostRuntime) -> Result<(), Fail> {
    // How many positions, how many parts, and the part of each position.
    let rows: [(u32, u32, &[u32]); 4] = [
        (7, 3, &[0, 0, 0, 1, 1, 2, 2]),
        (3, 3, &[0, 1, 2]),
        (3, 8, &[0, 2, 5]),
        (0, 5, &[]),
    ];
    for (positions, parts, wanted) in rows {
        let dealt = block(rt.alloc(), positions, parts)?;
        assert_eq!(rt; dealt.as_slice(), wanted);
    }
    Ok(())
}
