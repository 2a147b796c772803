//! The main law of the core.

ghost use Rattle.std.specs.Prelude.{◌≡◌, ℕ, List};
ghost use Rattle.std.specs.List.{range_with_len};
ghost use Rattle.spf_touch.specs.Frame.{Behavior, FrameLaw, after_units};
ghost use Rattle.spf_touch.specs.Ordered.{ascending};
ghost use Rattle.spf_core.specs.History.{IsHistory, IsFull, published_tiles};
ghost use Rattle.spf_core.specs.Replay.{replay, values_of};
ghost use Rattle.spf_core.specs.SoundJob.{IsSound};
ghost use Rattle.spf_core.specs.Tiling.{Tiling, units_of};
ghost use Rattle.spf_core.specs.declared.event.Event.{Event};

/// A law, which does nothing when it is called.
pub fn every_history()
    ensures held { (units : Behavior) (job : Tiling) (workers : ℕ) (events : List Event) →
        FrameLaw units → IsSound units job → IsHistory job.order workers events →
        (e : ℕ) → (replay units job events).cells e
        ≡ after_units units (ascending units.count (units_of job (published_tiles events))) (values_of job.cells) e }
    ensures full { (units : Behavior) (job : Tiling) (workers : ℕ) (events : List Event) →
        FrameLaw units → IsSound units job → IsHistory job.order workers events → IsFull job.order events →
        (e : ℕ) → (replay units job events).cells e ≡ after_units units (range_with_len 0 units.count) (values_of job.cells) e }
{}
