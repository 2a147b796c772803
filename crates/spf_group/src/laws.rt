//! What orders by keys are bound to.

ghost use Rattle.std.specs.Prelude.{◌≡◌, ℕ, List};
ghost use Rattle.spf_perm.specs.Perm.{IsPerm};
ghost use Rattle.spf_group.specs.Ordered.{IsOrderedBy};

/// Law: at most one permutation is the stable order by these keys on an old order.
pub fn one_order()
    ensures { (key : ℕ → List ℕ) (old a b : List ℕ) → IsPerm a → IsPerm b → IsOrderedBy key old a → IsOrderedBy key old b → a ≡ b }
{}
