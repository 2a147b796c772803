//! What units do where their elements go to other places.

ghost use Rattle.std.specs.Prelude.{◌≡◌, ◌<◌, ◌↔◌, ℕ, ℤ, List, map, true};
ghost use Rattle.spf_touch.specs.Actions.{Action, accesses, action_behavior, performed, touches_of};
ghost use Rattle.spf_touch.specs.Conflict.{Conflict};
ghost use Rattle.spf_touch.specs.Frame.{Behavior, FrameLaw, after_units};
ghost use Rattle.spf_touch.specs.Ordered.{IsLegalOrder, is_in};
ghost use Rattle.spf_touch.specs.Renaming.{AreAlike, Renaming, renamed_access, renamed_action, renamed_actions, renamed_touches, renamed_units, unpacked};

/// Law: renamed units keep the frame law, conflict as the units do, and have the same legal orders. What they make of values,
/// unpacked, is what the units make of the unpacked values.
pub fn renamed_units_do_the_same()
    ensures frame { (renaming : Renaming) (units : Behavior) → FrameLaw units → FrameLaw (renamed_units renaming units) }
    ensures conflicts { (renaming : Renaming) (units : Behavior) (u v : ℕ) →
        Conflict ((renamed_units renaming units).touches u) ((renamed_units renaming units).touches v) ↔ Conflict (units.touches u) (units.touches v) }
    ensures orders { (renaming : Renaming) (units : Behavior) (us : List ℕ) → IsLegalOrder (renamed_units renaming units) us ↔ IsLegalOrder units us }
    ensures values { (renaming : Renaming) (units : Behavior) (us : List ℕ) (values : ℕ → ℤ) (e : ℕ) →
        after_units (renamed_units renaming units) us values (renaming.to e) ≡ after_units units us (unpacked renaming values) e }
{}

/// Law: units that are alike keep the frame law together, conflict alike, have the same legal orders, and make the same of
/// values. Being alike goes both ways and on from one to the next, and renamed units are alike where the units are.
pub fn alike_units_do_the_same()
    ensures frame { (mine theirs : Behavior) → AreAlike mine theirs → FrameLaw theirs → FrameLaw mine }
    ensures conflicts { (mine theirs : Behavior) (u v : ℕ) → AreAlike mine theirs → u < mine.count → v < mine.count →
        Conflict (mine.touches u) (mine.touches v) ↔ Conflict (theirs.touches u) (theirs.touches v) }
    ensures orders { (mine theirs : Behavior) (us : List ℕ) → AreAlike mine theirs → IsLegalOrder mine us ↔ IsLegalOrder theirs us }
    ensures values { (mine theirs : Behavior) (us : List ℕ) (values : ℕ → ℤ) → AreAlike mine theirs → ((u : ℕ) → is_in us u ≡ true → u < mine.count) →
        (e : ℕ) → after_units mine us values e ≡ after_units theirs us values e }
    ensures turned { (mine theirs : Behavior) → AreAlike mine theirs → AreAlike theirs mine }
    ensures chained { (mine theirs others : Behavior) → AreAlike mine theirs → AreAlike theirs others → AreAlike mine others }
    ensures renamed { (renaming : Renaming) (mine theirs : Behavior) → AreAlike mine theirs → AreAlike (renamed_units renaming mine) (renamed_units renaming theirs) }
{}

/// Law: renamed actions name the places to which the elements go. What they make of values, unpacked, is what the actions
/// make of the unpacked values; and units of renamed actions are the renamed units of the actions.
pub fn renamed_actions_do_the_same()
    ensures accesses { (renaming : Renaming) (action : Action) → accesses (renamed_action renaming action) ≡ map (renamed_access renaming) (accesses action) }
    ensures touches { (renaming : Renaming) (actions : List Action) → touches_of (renamed_actions renaming actions) ≡ renamed_touches renaming (touches_of actions) }
    ensures performed { (renaming : Renaming) (actions : List Action) (values : ℕ → ℤ) (e : ℕ) →
        performed (renamed_actions renaming actions) values (renaming.to e) ≡ performed actions (unpacked renaming values) e }
    ensures units { (renaming : Renaming) (units : ℕ → List Action) (count : ℕ) →
        AreAlike (action_behavior (λ u. renamed_actions renaming (units u)) count) (renamed_units renaming (action_behavior units count)) }
{}
