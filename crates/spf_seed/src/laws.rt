//! What breadth-first orders are bound to.

ghost use Rattle.std.specs.Prelude.{◌≡◌, ℕ, List};
ghost use Rattle.spf_seed.specs.BreadthFirst.{IsBreadthFirst};
ghost use Rattle.spf_seed.specs.Spread.{IsSpread};
ghost use Rattle.spf_seed.specs.View.{AreNeighbours, positions};
ghost use Rattle.spf_seed.specs.declared.view.SeedView.{SeedView};

/// Law: a view has at most one breadth-first order of its positions, and so at most one list of parts along it.
pub fn one_breadth_first_order()
    ensures order { (view : SeedView) (a b : List ℕ) → IsBreadthFirst (AreNeighbours view) (positions view) a →
        IsBreadthFirst (AreNeighbours view) (positions view) b → a ≡ b }
    ensures parts { (view : SeedView) (a b : List ℕ) → IsSpread view a → IsSpread view b → a ≡ b }
{}
