//! The bundle that a text is, and its kernel alone.

ghost use Rattle.std.specs.Prelude.{◌≡◌, ◌≤◌, List, length};
ghost use Rattle.spf_input.specs.Answer.{IsAnswer, IsBundleAnswer};
ghost use Rattle.spf_input.specs.Given.{Given};
ghost use Rattle.spf_input.specs.Stage.{OneAnswer};
ghost use Rattle.spf_input.specs.Tested.{IsInputOf};
ghost use Rattle.spf_input.specs.declared.fault.InputFault.TheVariants.{Memory};

use crate::bundle::RawBundle;
use crate::fault::InputFault;
use crate::input::{KernelInput, read_input};
use spf_kernel::{Kernel, judge};
use spf_lex::{Kind, tokens, whole};
use spf_script::{Script, script_of};
use spf_store::Store;
use spf_term::Env;
use std::alloc::Global;

/// A kernel, a script, and what the kernel is given: its parameters and index arrays, its cells, and the number of steps.
#[derive(Drop)]
pub struct Bundle {
    pub kernel: Kernel,
    pub script: Script,
    pub env: Env,
    pub store: Store,
    pub steps: u32,
}

/// The kernel of the bundle that a text is: its tokens, from the first to the last, are a bundle, and its kernel keeps the
/// rules. Linear in the text, and in the bytes of the kernel's names on average; takes about 24 bytes for each token.
pub fn read_kernel(alloc: Global, text: &[u8]) -> Result<Kernel, InputFault>
    requires { length text.now ≤ 67108864 }
    ensures { IsAnswer text.now result }
{
    let tokens = tokens(alloc, text)?;
    let raw = whole::<Kind, RawBundle>(alloc, &tokens)?;
    Ok(judge(alloc, &tokens, &raw.kernel)?)
}

/// The bundle of these parts, of which the input keeps its rules.
fn bundle_of(kernel: Kernel, script: Script, input: KernelInput) -> Bundle
    requires { (given : List Given) × IsInputOf kernel given input }
    ensures kernel { result.kernel ≡ kernel }
    ensures script { result.script ≡ script }
    ensures env { result.env ≡ input.env }
    ensures cells { result.store.cells ≡ input.cells.items }
    ensures arrays { result.store.arrays ≡ input.arrays }
    ensures steps { result.steps ≡ input.steps }
{
    let _tree = kernel.tree();
    Bundle {
        kernel,
        script,
        env: input.env,
        store: Store {
            cells: input.cells,
            arrays: input.arrays,
        },
        steps: input.steps,
    }
}

/// The bundle that a text is: its tokens, from the first to the last, are a bundle, its kernel keeps the rules, and its input
/// keeps its own. Linear in the text, and in the bytes of names on average; takes about 24 bytes for each token, and 8 for
/// each number that is given.
pub fn read_bundle(alloc: Global, text: &[u8]) -> Result<Bundle, InputFault>
    requires { length text.now ≤ 67108864 }
    ensures { IsBundleAnswer text.now result }
{
    let tokens = tokens(alloc, text)?;
    let parts = whole::<Kind, RawBundle>(alloc, &tokens)?;
    let kernel = judge(alloc, &tokens, &parts.kernel)?;
    let entries = parts.input.entries.as_slice();
    let input = read_input(alloc, kernel.tree(), &tokens, entries)?;
    let script = script_of(&tokens, parts.script);
    Ok(bundle_of(kernel, script, input))
}

/// Law: where a text is a bundle whose kernel keeps the rules, that kernel is the only answer besides running out of
/// memory; and where its input keeps its own too, that bundle is.
pub fn one_bundle_answer()
    ensures kernel { OneAnswer Memory IsAnswer }
    ensures bundle { OneAnswer Memory IsBundleAnswer }
{}
