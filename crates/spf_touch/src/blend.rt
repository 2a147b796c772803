//! The laws of the classes whose blends may be taken in any order.

ghost use Rattle.std.specs.Prelude.{◌≡◌, ℤ, true, FitsSigned};
ghost use Rattle.std.specs.Int.{w64};
ghost use Rattle.spf_touch.specs.Blend.{blend, neutral, is_reduction};
ghost use Rattle.spf_touch.specs.declared.class.Class.{Class};

/// A law, which does nothing when it is called: on numbers of 64 bits the blend of a reduction class is associative and
/// commutative, and its neutral number changes nothing.
pub fn blend_laws()
    ensures associative { (c : Class) (x y z : ℤ) → is_reduction c ≡ true → blend c (blend c x y) z ≡ blend c x (blend c y z) }
    ensures commutative { (c : Class) (x y : ℤ) → is_reduction c ≡ true → blend c x y ≡ blend c y x }
    ensures neutral { (c : Class) (x : ℤ) → is_reduction c ≡ true → FitsSigned w64 x → blend c (neutral c) x ≡ x }
    ensures closed { (c : Class) (x y : ℤ) → FitsSigned w64 x → FitsSigned w64 y → FitsSigned w64 (blend c x y) }
{}
