//! The public tree that a raw tree means.

ghost use Rattle.std.specs.Prelude.{ℕ, ◌≡◌, IfOk, List, All, map};
ghost use Rattle.spf_base.specs.Word.{IsName};
ghost use Rattle.spf_lex.specs.Tokens.{texts};
ghost use Rattle.spf_kernel.specs.Facts.{text_of};
ghost use Rattle.spf_kernel.specs.Names.{Names};
ghost use Rattle.spf_kernel.specs.Notes.{kernel_notes};
ghost use Rattle.spf_kernel.specs.Resolved.{tree_of};
ghost use Rattle.spf_kernel.specs.Rules.{tokens_that, is_naming};
ghost use Rattle.spf_kernel.specs.Types.{Scope};

mod declarations;
mod loops;
mod statements;
mod terms;
mod values;

use crate::check::names::Source;
use crate::note::Scope;
use crate::raw::RawKernel;
use crate::tree::Tree;
use spf_base::NoMemory;
use sqlite_items::Items;

/// A part of a raw tree that means something, where these variables are in scope.
trait Means {
    type Tree: Drop;

    ghost are_names: { List (List ℕ) → Scope → Self → Type 0 };

    ghost meaning: { List (List ℕ) → Names → Scope → Self → Self.Tree };

    /// What it means. Linear in it.
    fn resolve(&self, source: &Source, scope: Scope) -> Result<Self::Tree, NoMemory>
        requires { are_names (texts source.now.tokens.now) scope self.now }
        ensures { IfOk result (λ found. found ≡ meaning (texts source.now.tokens.now) source.now.names.now scope self.now) };
}

/// What each part means.
fn resolve_all<T: Means>(
    source: &Source,
    scope: Scope,
    parts: &[T],
) -> Result<Items<T::Tree>, NoMemory>
    requires { All (T.are_names (texts source.now.tokens.now) scope) parts.now }
    ensures { IfOk result (λ all. all ≡ map (T.meaning (texts source.now.tokens.now) source.now.names.now scope) parts.now) }
{
    let mut all = Items::new(source.alloc);
    for part in parts {
        all.push(part.resolve(source, scope)?)?;
    }
    Ok(all)
}

/// The tree that a kernel means, where these are its names. Linear in the kernel.
pub(crate) fn resolve(source: &Source, kernel: &RawKernel) -> Result<Tree, NoMemory>
    requires { All (λ t. IsName (text_of (texts source.now.tokens.now) t)) (tokens_that is_naming (kernel_notes kernel.now)) }
    ensures { IfOk result (λ tree. tree ≡ tree_of (texts source.now.tokens.now) source.now.names.now kernel.now) }
{
    let nothing = Scope::Nothing;
    let decls = resolve_all(source, nothing, kernel.decls.as_slice())?;
    let steps = terms::resolve_ix(source, nothing, &kernel.steps)?;
    let loops = resolve_all(source, nothing, kernel.loops.as_slice())?;
    Ok(Tree {
        decls,
        steps,
        loops,
    })
}
