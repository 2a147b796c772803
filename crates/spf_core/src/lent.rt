//! Cells that are lent for a run.

ghost use Rattle.std.specs.Prelude.{◌≡◌};

use spf_touch::Cells;

/// A slice of cells, each of which may be written.
#[derive(Drop)]
pub(crate) struct Lent<'a> {
    pub(crate) cells: &'a mut [i64],
}

impl Cells for Lent<'_> {
    ghost use Rattle.std.specs.Prelude.{◌≡◌, nat_lt, length};
    ghost use Rattle.std.proofs.Common.{◌∙◌, refl};
    ghost use Rattle.spf_core.specs.Replay.{values_of};

    ghost own = { λ lent e. nat_lt e (length lent.cells.now) };

    ghost value = { λ lent e. values_of lent.cells.now e };

    ghost kept = { λ first last. (first.cells.ghost_name ≡ last.cells.ghost_name) × (length first.cells.now ≡ length last.cells.now) };

    fn get(&self, element: u32) -> i64 {
        self.cells[element as usize]
    }

    fn set(&mut self, element: u32, number: i64) {
        self.cells[element as usize] = number;
    }

    ghost kept_at_first = { λ lent. (refl, refl) };

    ghost kept_on = { λ first second last p q. (p.0 ∙ q.0, p.1 ∙ q.1) };
}
