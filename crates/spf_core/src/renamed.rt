//! Jobs on where the elements of another job go.

ghost use Rattle.std.specs.Prelude.{◌≡◌, ◌<◌, ℕ, length};
ghost use Rattle.spf_touch.specs.Frame.{Behavior};
ghost use Rattle.spf_touch.specs.Renaming.{AreAlike, Renaming, renamed_units};
ghost use Rattle.spf_core.specs.SoundJob.{IsFoot, IsSound};
ghost use Rattle.spf_core.specs.Tiling.{Tiling};

use spf_touch::{alike_units_do_the_same, renamed_units_do_the_same};

/// Law: lists and an order that are sound for units are sound for units that are alike to the renamed ones, on any cells, once
/// the feet are theirs.
pub fn renamed_jobs_are_sound()
    ensures { (renaming : Renaming) (units mine : Behavior) (job moved : Tiling) → IsSound units job → AreAlike mine (renamed_units renaming units) →
        moved.lists ≡ job.lists → moved.order ≡ job.order → length moved.feet ≡ length job.lists →
        ((t : ℕ) → t < length job.lists → IsFoot mine moved t) → IsSound mine moved }
{
    renamed_units_do_the_same();
    alike_units_do_the_same();
}
