//! A worker's copy of the elements of a tile.

ghost use Rattle.std.specs.Prelude.{◌≡◌, ◌<◌, ℕ, IfOk, None, Some, length, replicate, slice_set};
ghost use Rattle.spf_core.specs.Copies.{value_in};

use spf_base::NoMemory;
use spf_touch::Cells;
use std::alloc::Global;
use std::marker::Model;

/// A map from elements to values. Contracts read it by `value_in`.
#[derive(Drop)]
pub struct Copied {
    values: Vec<Option<i64>>,
}

impl Model for Copied {
    ghost use Rattle.std.specs.Prelude.{List, Option, ℤ};

    ghost Value = { List (Option ℤ) };

    ghost view = { λ copied. copied.values.items };
}

impl Copied {
    /// A copy of nothing, with room for the elements below `places`.
    pub(crate) fn empty(alloc: Global, places: usize) -> Result<Copied, NoMemory>
        ensures { IfOk result (λ copied. copied ≡ replicate places None) }
    {
        Ok(Copied {
            values: vec![in alloc; None; places]?,
        })
    }

    /// Forgets all values. Linear in the room.
    pub(crate) fn clear(&mut self)
        ensures room { length self.new ≡ length self.old }
        ensures nothing { (e : ℕ) → value_in self.new e ≡ None }
    {
        forget(self.values.as_mut_slice());
    }

    pub(crate) fn put(&mut self, element: u32, value: i64)
        requires { element < length self.old }
        ensures { self.new ≡ slice_set self.old element (Some value) }
    {
        self.values[element as usize] = Some(value);
    }
}

impl Cells for Copied {
    ghost use Rattle.std.specs.Prelude.{◌≡◌, is_some, length};
    ghost use Rattle.std.proofs.Common.{◌∙◌, refl};
    ghost use Rattle.spf_touch.specs.Copy.{value_or_0};
    ghost use Rattle.spf_core.specs.Copies.{value_in};

    ghost own = { λ copied e. is_some (value_in copied e) };

    ghost value = { λ copied e. value_or_0 (value_in copied e) };

    ghost kept = { λ first last. length first ≡ length last };

    fn get(&self, element: u32) -> i64 {
        match self.values[element as usize] {
            Some(value) => value,
            None => unreachable!(),
        }
    }

    fn set(&mut self, element: u32, number: i64) {
        self.values[element as usize] = Some(number);
    }

    ghost kept_at_first = { λ copied. refl };

    ghost kept_on = { λ first second last p q. p ∙ q };
}

fn forget(values: &mut [Option<i64>])
    ensures { (e : ℕ) → value_in values.new e ≡ None }
{
    for value in values.iter_mut() {
        *value = None;
    }
}
