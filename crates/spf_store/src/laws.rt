//! What iterations do as lists of actions.

ghost use Rattle.std.specs.Prelude.{◌≡◌, ℕ, ℤ, List};
ghost use Rattle.spf_term.specs.Environment.{Environment};
ghost use Rattle.spf_touch.specs.Actions.{performed};
ghost use Rattle.spf_kernel.specs.declared.tree.Item.{Item};
ghost use Rattle.spf_store.specs.ActionTrace.{Fits};
ghost use Rattle.spf_store.specs.Actions.{actions_of};
ghost use Rattle.spf_store.specs.Effect.{effect};
ghost use Rattle.spf_store.specs.Event.{Event};
ghost use Rattle.spf_store.specs.Trace.{items_trace};

/// Law: an iteration accesses what its actions name, in their order, and the effect of events is what their actions perform.
/// So units that run iterations keep the frame law of units that perform actions.
pub fn iterations_are_actions()
    ensures accesses { (env : Environment) (starts : List ℕ) (variables : List ℤ) (site : ℕ) (items : List Item) → Fits env starts (items_trace env variables site items) }
    ensures effects { (env : Environment) (starts : List ℕ) (events : List Event) (cells : ℕ → ℤ) → effect env starts events cells ≡ performed (actions_of env starts events) cells }
{}
