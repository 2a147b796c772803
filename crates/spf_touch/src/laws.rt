//! What the frame law gives, for any units, and that units of actions keep it.

ghost use Rattle.std.specs.Prelude.{◌≡◌, ◌<◌, ℕ, ℤ, All, Bool, List, true};
ghost use Rattle.std.specs.List.{flat_map};
ghost use Rattle.spf_touch.specs.Actions.{Action, accesses, action_behavior, performed, touches_of};
ghost use Rattle.spf_touch.specs.Copy.{class_of, copied, copy_at, value_or_0};
ghost use Rattle.spf_touch.specs.Frame.{Behavior, FrameLaw, IsTouched, after_units, blend_at, effect};
ghost use Rattle.spf_touch.specs.Ordered.{IsLegalOrder, ascending, is_in};

/// A law, which does nothing when it is called: units in any legal order do what they do in ascending order.
pub fn any_legal_order()
    ensures { (units : Behavior) (us : List ℕ) (values : ℕ → ℤ) → FrameLaw units → IsLegalOrder units us →
        (e : ℕ) → after_units units us values e ≡ after_units units (ascending units.count us) values e }
{}

/// A law, which does nothing when it is called: what units do to the cells is what they do to a copy of the elements that
/// they touch, blended in. The copy has the neutral number where all of them have one reduction class.
pub fn work_on_a_copy()
    ensures { (units : Behavior) (us : List ℕ) (values : ℕ → ℤ) → FrameLaw units →
        ((u : ℕ) → is_in us u ≡ true → u < units.count) →
        (e : ℕ) → after_units units us values e ≡ blend_at (class_of units.touches us e) (values e)
        (after_units units us (λ x. value_or_0 (copy_at (class_of units.touches us x) (values x))) e) }
{}

/// Law: units that are lists of actions keep the frame law. Actions do to the cells what they do to a copy of the elements
/// that they touch, blended in; and who owns these elements owns each element that an action names.
pub fn actions_keep_the_frame_law()
    ensures frame { (units : ℕ → List Action) (count : ℕ) → FrameLaw (action_behavior units count) }
    ensures effect { (actions : List Action) (values : ℕ → ℤ) (e : ℕ) →
        performed actions values e ≡ effect (touches_of actions) (performed actions (copied (touches_of actions) values)) values e }
    ensures own { (actions : List Action) (owns : ℕ → Bool) → ((e : ℕ) → IsTouched (touches_of actions) e → owns e ≡ true) →
        All (λ access. owns access.0 ≡ true) (flat_map accesses actions) }
{}
