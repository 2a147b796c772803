//! Whole numbers of 64 bits that wrap.

ghost use Rattle.std.specs.Prelude.{◌≡◌, ℤ, ◌+ℤ◌, ◌-ℤ◌, ◌*ℤ◌};
ghost use Rattle.spf_base.specs.Wrap.{IsWrap, wrap};

/// The sum, wrapped to 64 bits.
pub fn wadd(a: i64, b: i64) -> i64
    ensures wraps { IsWrap (a +ℤ b) result }
    ensures value { result ≡ wrap (a +ℤ b) }
{
    a.wrapping_add(b)
}

/// The difference, wrapped to 64 bits.
pub fn wsub(a: i64, b: i64) -> i64
    ensures wraps { IsWrap (a -ℤ b) result }
    ensures value { result ≡ wrap (a -ℤ b) }
{
    a.wrapping_sub(b)
}

/// The product, wrapped to 64 bits.
pub fn wmul(a: i64, b: i64) -> i64
    ensures wraps { IsWrap (a *ℤ b) result }
    ensures value { result ≡ wrap (a *ℤ b) }
{
    a.wrapping_mul(b)
}

/// A law, which does nothing when it is called: each integer has one wrap, and `wrap` computes it.
pub fn one_wrap()
    ensures is { (z : ℤ) → IsWrap z (wrap z) }
    ensures only { (z w : ℤ) → IsWrap z w → w ≡ wrap z }
{}
