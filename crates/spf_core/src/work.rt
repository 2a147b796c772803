//! Units run one after another.

ghost use Rattle.std.specs.Prelude.{◌≡◌, ◌<◌, ℕ, true};
ghost use Rattle.spf_touch.specs.Frame.{IsTouched, after_units};
ghost use Rattle.spf_touch.specs.Ordered.{is_in};

use spf_touch::{Cells, Units};

/// Runs the units of the list in turn.
pub(crate) fn run_list<U: Units, C: Cells>(units: &U, list: &[u32], cells: &mut C)
    requires units { (u : ℕ) → is_in list.now u ≡ true → u < (U.behavior units.now).count }
    requires own { (u e : ℕ) → is_in list.now u ≡ true → IsTouched ((U.behavior units.now).touches u) e → C.own cells.old e ≡ true }
    ensures own { (e : ℕ) → C.own cells.new e ≡ C.own cells.old e }
    ensures kept { C.kept cells.old cells.new }
    ensures value { (e : ℕ) → C.value cells.new e ≡ after_units (U.behavior units.now) list.now (C.value cells.old) e }
{
    for unit in list {
        units.run(*unit, cells);
    }
}
