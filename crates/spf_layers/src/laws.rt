//! What exact groups are good for.

ghost use Rattle.std.specs.Prelude.{◌<◌, ℕ, List, map};
ghost use Rattle.std.specs.List.{range_with_len};
ghost use Rattle.spf_touch.specs.Frame.{IsOnce, IsTouched};
ghost use Rattle.spf_touch.specs.declared.touch.Touch.{Touch};
ghost use Rattle.spf_layers.specs.Fits.{Fits};
ghost use Rattle.spf_layers.specs.Groups.{groups_at};

/// Law: the exact groups of all elements fit the touches.
pub fn exact_groups_fit()
    ensures { (touches : ℕ → List Touch) (count cells : ℕ) → ((u : ℕ) → u < count → IsOnce (touches u)) →
        ((u e : ℕ) → u < count → IsTouched (touches u) e → e < cells) → Fits touches count (map (groups_at touches count) (range_with_len 0 cells)) }
{}
