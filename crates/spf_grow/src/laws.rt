//! What growth leaves open: nothing.

ghost use Rattle.std.specs.Prelude.{◌≡◌, ◌+◌, ◌<◌, ◌≤◌, ℕ, List, length};
ghost use Rattle.spf_touch.specs.declared.touch.Touch.{Touch};
ghost use Rattle.spf_grow.specs.Growth.{Falls, IsGrown, IsGrowth};

/// Law: no two functions, nor two lists of one number for each unit, grow from one seed.
pub fn one_growth()
    ensures numbers { (touches : ℕ → List Touch) (count first : ℕ) (seed : List ℕ) (parts : ℕ) (numbers others : ℕ → ℕ) →
        IsGrowth touches count first seed parts numbers → IsGrowth touches count first seed parts others → (u : ℕ) → u < count → numbers u ≡ others u }
    ensures lists { (touches : ℕ → List Touch) (count first : ℕ) (seed : List ℕ) (parts : ℕ) (numbers others : List ℕ) →
        IsGrown touches count first seed parts numbers → IsGrown touches count first seed parts others → numbers ≡ others }
{}

/// Law: where numbers grow from a seed of units below count, it falls along no two of them.
pub fn no_growth_where_the_seed_falls()
    ensures { (touches : ℕ → List Touch) (count first : ℕ) (seed : List ℕ) (parts : ℕ) (numbers : ℕ → ℕ) → first + length seed ≤ count →
        IsGrowth touches count first seed parts numbers → (p q : ℕ) → ¬ Falls touches first seed p q }
{}
