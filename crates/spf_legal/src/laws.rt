//! What it means that no pair is reversed.

ghost use Rattle.std.specs.Prelude.{ℕ, List, None, length};
ghost use Rattle.spf_layers.specs.Legality.{IsFirst, IsLegal, IsReversed};
ghost use Rattle.spf_space.specs.Places.{ArePlacesOf, place_of};
ghost use Rattle.spf_space.specs.Units.{units_of};
ghost use Rattle.spf_space.specs.declared.shape.LoopShape.{LoopShape};
ghost use Rattle.spf_touch.specs.declared.touch.Touch.{Touch};

/// Law: where no pair is reversed the places are legal.
pub fn legal_where_none_is_reversed()
    ensures { (touches : ℕ → List Touch) (steps : ℕ) (loops : List LoopShape) (tiles : List ℕ) (orders : List (List ℕ)) → ArePlacesOf steps loops tiles orders →
        IsFirst (IsReversed touches (place_of steps loops tiles orders) (length (units_of steps loops))) None →
        IsLegal touches (place_of steps loops tiles orders) (length (units_of steps loops)) }
{}
