//! What packings are bound to.

ghost use Rattle.std.specs.Prelude.{◌≡◌, ℕ, List};
ghost use Rattle.spf_perm.specs.Perm.{IsPerm};
ghost use Rattle.spf_space.specs.declared.places.Places.{Places};
ghost use Rattle.spf_space.specs.declared.shape.Shape.{Shape};
ghost use Rattle.spf_touch.specs.declared.touch.Touch.{Touch};
ghost use Rattle.spf_pack.specs.Packs.{IsCpacking, IsTilepacking};

/// Law: at most one permutation packs an array by the touches of a loop, and at most one by those of all units in the order of
/// their places.
pub fn one_packing()
    ensures by_loop { (touches : List (List Touch)) (shape : Shape) (by : ℕ) (order members : List ℕ) (now : List (List ℕ)) (a b : List ℕ) →
        IsPerm a → IsCpacking touches shape by order members now a → IsCpacking touches shape by order members now b → a ≡ b }
    ensures by_tiles { (touches : List (List Touch)) (shape : Shape) (places : Places) (members : List ℕ) (now : List (List ℕ)) (a b : List ℕ) →
        IsPerm a → IsTilepacking touches shape places members now a → IsTilepacking touches shape places members now b → a ≡ b }
{}
