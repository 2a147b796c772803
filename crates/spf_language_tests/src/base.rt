use spf_base::{Name, wadd, wmul, wsub};
use std::test::Fail;

#[test]
fn arithmetic_wraps(rt: HostRuntime) {
    // Two numbers, their sum, their difference and their product.
    let table = [
        (2, -5, -3, 7, -10),
        (-3, 7, 4, -10, -21),
        (i64::MAX, 1, i64::MIN, i64::MAX - 1, i64::MAX),
        (i64::MIN, 1, i64::MIN + 1, i64::MAX, i64::MIN),
        (i64::MIN, -1, i64::MAX, i64::MIN + 1, i64::MIN),
        (4_294_967_296, 4_294_967_296, 8_589_934_592, 0, 0),
    ];
    for (a, b, sum, difference, product) in table {
        assert_eq!(rt; wadd(a, b), sum);
        assert_eq!(rt; wsub(a, b), difference);
        assert_eq!(rt; wmul(a, b), product);
    }
}

#[test]
fn a_name_is_copied(rt: HostRuntime) -> Result<(), Fail> {
    let name = Name::copy(rt.alloc(), b"ia_2")?;
    assert_eq!(rt; name.bytes(), b"ia_2".as_slice());
    Ok(())
}
