//! The source loops.

ghost use Rattle.std.specs.Prelude.{◌≡◌, ℕ, ◌≤◌, length, map, pos, take, slice_index_or};
ghost use Rattle.spf_space.specs.declared.shape.ArrayShape.{ArrayShape};
ghost use Rattle.spf_store.specs.Accepted.{IsAccepted};
ghost use Rattle.spf_store.specs.FirstFault.{AreInRange};
ghost use Rattle.spf_store.specs.Shaped.{data_of};
ghost use Rattle.spf_store.specs.Source.{source_result};

use crate::given::Given;
use crate::loops::run_steps;
use spf_kernel::Kernel;
use spf_space::ArrayShape;
use spf_store::Store;
use spf_term::Env;

/// The first element of each of at most 64 arrays.
pub(crate) fn starts_of(arrays: &[ArrayShape]) -> [u32; 64]
    requires { length arrays.now ≤ 64 }
    ensures { take (length arrays.now) result ≡ map (λ (array : ArrayShape). array.start) arrays.now }
{
    let mut starts = [0; 64];
    for (number, array) in arrays.iter().enumerate() {
        starts[number] = array.start;
    }
    starts
}

/// Performs the source loops in textual order, so many steps. Linear in the events of all units.
pub fn run_source(kernel: &Kernel, env: &Env, store: &mut Store, steps: u32)
    requires accepted { IsAccepted env.now kernel.now }
    requires arrays { store.old.arrays ≡ data_of env.now kernel.now }
    requires range { AreInRange env.now kernel.now }
    ensures arrays { store.new.arrays ≡ store.old.arrays }
    ensures count { length store.new.cells ≡ length store.old.cells }
    ensures cells { (e : ℕ) → slice_index_or store.new.cells e (pos 0) ≡ source_result env.now kernel.now steps (λ of. slice_index_or store.old.cells of (pos 0)) e }
{
    let tree = kernel.tree();
    let starts = starts_of(store.arrays.as_slice());
    let given = Given {
        env,
        starts: &starts[..store.arrays.len()],
    };
    run_steps(&given, tree, steps, store);
}
