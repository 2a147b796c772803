//! What it means that a tile is before another, and that the parts of a plan's job are sound.

ghost use Rattle.std.specs.Prelude.{◌≡◌, ◌↔◌, ◌<◌, ℕ, List, length, true};
ghost use Rattle.spf_core.specs.History.{is_before};
ghost use Rattle.spf_core.specs.SoundJob.{IsSound};
ghost use Rattle.spf_core.specs.Tiling.{Tiling};
ghost use Rattle.spf_layers.specs.Legality.{IsLegal};
ghost use Rattle.spf_space.specs.Places.{ArePlacesOf, Place, place_of};
ghost use Rattle.spf_space.specs.Units.{units_of};
ghost use Rattle.spf_space.specs.declared.shape.LoopShape.{LoopShape};
ghost use Rattle.spf_tiles.specs.Before.{Before};
ghost use Rattle.spf_tiles.specs.Parts.{ArePlanParts, IsOrderFor};
ghost use Rattle.spf_touch.specs.Frame.{Behavior};
ghost use Rattle.spf_touch.specs.declared.touch.Touch.{Touch};

/// Law: what is before a tile that is before another is before that one too, and for legal places a tile is before greater
/// ones alone.
pub fn before_rises()
    ensures transitive { (touches : ℕ → List Touch) (tiles : List ℕ) (a b c : ℕ) → Before touches tiles a b → Before touches tiles b c → Before touches tiles a c }
    ensures rises { (touches : ℕ → List Touch) (steps : ℕ) (loops : List LoopShape) (tiles : List ℕ) (orders : List (List ℕ)) → ArePlacesOf steps loops tiles orders →
        IsLegal touches (place_of steps loops tiles orders) (length (units_of steps loops)) → (a b : ℕ) → Before touches tiles a b → a < b }
{}

/// Law: for legal places an order that has tile a before tile b exactly where `Before` does, as `tile_order` gives it, is the
/// order that a plan's job asks for.
pub fn tile_order_is_for_the_places()
    ensures { (touches : ℕ → List Touch) (steps : ℕ) (loops : List LoopShape) (places : List ℕ) (orders : List (List ℕ)) (tiles : ℕ) (order : List (List ℕ)) →
        ArePlacesOf steps loops places orders → IsLegal touches (place_of steps loops places orders) (length (units_of steps loops)) → length order ≡ tiles →
        ((a b : ℕ) → (is_before order a b ≡ true) ↔ Before touches places a b) →
        IsOrderFor touches (place_of steps loops places orders) (length (units_of steps loops)) tiles order }
{}

/// Law: for legal places the lists, the order and the feet are the parts of a sound job.
pub fn plan_parts_are_sound()
    ensures { (units : Behavior) (touches : ℕ → List Touch) (place : ℕ → Place) (tiles : ℕ) (job : Tiling) →
        ArePlanParts units touches place tiles job → IsSound units job }
{}
