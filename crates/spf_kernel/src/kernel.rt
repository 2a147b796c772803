//! A kernel that keeps the rules, and reading one.

ghost use Rattle.std.specs.Prelude.{◌≡◌, ◌<◌, ◌≤◌, ◌^◌, ◌⊎◌, ℕ, [], length, Result, IfOk, Ok, Err};
ghost use Rattle.spf_lex.specs.Joined.{joined};
ghost use Rattle.spf_lex.specs.Tokens.{Tokenized, IsTokenized, texts};
ghost use Rattle.spf_kernel.specs.declared.fault.KernelFault.{KernelFault};
ghost use Rattle.spf_kernel.specs.declared.fault.KernelFault.TheVariants.{Memory};
ghost use Rattle.spf_kernel.specs.declared.tree.Tree.{Tree};
ghost use Rattle.spf_kernel.specs.Bounded.{IsBoundedTree};
ghost use Rattle.spf_kernel.specs.check.Checked.{Checked};
ghost use Rattle.spf_kernel.specs.check.State.{IsBehind};
ghost use Rattle.spf_kernel.specs.Named.{IsNamed};
ghost use Rattle.spf_kernel.specs.Notes.{kernel_notes};
ghost use Rattle.spf_kernel.specs.Resolved.{tree_of};
ghost use Rattle.spf_kernel.specs.read.Stands.{StandsAt};
ghost use Rattle.spf_kernel.specs.Parsed.{IsParsed, IsTextOf, IsAnswer, IsVerdict, ParsesTo};
ghost use Rattle.spf_kernel.specs.printing.Printed.{words_of};

use crate::check::names::{Names, Source};
use crate::check::notes::note_kernel;
use crate::check::state::Check;
use crate::fault::{KernelFault, Unkept};
use crate::printing::tree::tree_text;
use crate::raw::RawKernel;
use crate::resolve::resolve;
use crate::tree::Tree;
use spf_base::NoMemory;
use spf_lex::{Kind, PartFault, Tokens, part_at, place_from};
use std::alloc::Global;
use std::marker::Model;

/// A kernel that some text spells and that keeps the rules, seen as its tree, which is small enough.
#[derive(Drop)]
pub struct Kernel {
    tree: Tree,
}

impl Model for Kernel {
    ghost use Rattle.std.specs.Coded.{codes};
    ghost use Rattle.spf_term.specs.contracts.term.Term as term;
    ghost use Rattle.spf_kernel.specs.contracts.tree.Value as value;
    ghost use Rattle.spf_kernel.specs.declared.tree.Tree.{Tree};
    ghost use Rattle.spf_kernel.specs.Bounded.{IsBoundedTree};
    ghost use Rattle.spf_kernel.specs.Parsed.{IsParsed};

    ghost Value = { Tree };

    ghost coded = { Prim.hlevel (codes, term.the_row.coded, value.the_row.coded) };

    ghost view = { λ kernel. kernel.tree };

    ghost invariant = { λ kernel. IsParsed kernel.tree × IsBoundedTree kernel.tree };
}

impl Kernel {
    /// The tree. Constant time.
    pub fn tree(&self) -> &Tree
        ensures tree { result.now ≡ self.now }
        ensures parsed { IsParsed result.now }
        ensures named { IsNamed result.now }
        ensures bounded { IsBoundedTree result.now }
    {
        &self.tree
    }
}

/// The kernel that keeps the rules and has these names.
fn kernel_of(
    alloc: Global,
    tokens: &Tokens,
    names: &Names,
    raw: &RawKernel,
) -> Result<Kernel, NoMemory>
    requires stands { (from : ℕ) × (next : ℕ) × StandsAt tokens.now from next raw.now }
    requires lexed { IsTokenized tokens.now.text tokens.now.spans }
    requires checked { Checked (texts tokens.now) (kernel_notes raw.now) (Ok names.now) }
    requires few { length (kernel_notes raw.now) < 2 ^ 30 }
    ensures { IfOk result (λ kernel. kernel ≡ tree_of (texts tokens.now) names.now raw.now) }
{
    let source = Source {
        alloc,
        tokens,
        names,
    };
    let tree = resolve(&source, raw)?;
    Ok(Kernel { tree })
}

/// What a check that begins comes to at the raw tree.
fn judged(
    alloc: Global,
    tokens: &Tokens,
    check: &mut Check,
    raw: &RawKernel,
) -> Result<Kernel, Unkept>
    requires stands { (from : ℕ) × (next : ℕ) × StandsAt tokens.now from next raw.now }
    requires lexed { IsTokenized tokens.now.text tokens.now.spans }
    requires begins { IsBehind [] check.old }
    requires same { check.old.texts ≡ texts tokens.now }
    ensures { IsVerdict tokens.now raw.now result }
{
    note_kernel(check, raw)?;
    match check.finish() {
        Ok(names) => Ok(kernel_of(alloc, tokens, &names, raw)?),
        Err(breach) => Err(Unkept::Rule {
            place: place_from(tokens, breach.place),
            rule: breach.rule,
        }),
    }
}

/// The kernel of a raw tree that stands somewhere among the tokens, or the first rule that it breaks. Linear in the tree,
/// and in the bytes of the names on average.
pub fn judge(alloc: Global, tokens: &Tokens, raw: &RawKernel) -> Result<Kernel, Unkept>
    requires stands { (from : ℕ) × (next : ℕ) × StandsAt tokens.now from next raw.now }
    requires lexed { IsTokenized tokens.now.text tokens.now.spans }
    ensures { IsVerdict tokens.now raw.now result }
{
    judged(alloc, tokens, &mut Check::new(alloc, tokens), raw)
}

/// Reads the kernel that stands from token `from` on, and gives the number of the token behind it. Linear in the tokens,
/// and in the bytes of the names on average.
pub fn parse(alloc: Global, tokens: &Tokens, from: u32) -> Result<(Kernel, u32), KernelFault>
    requires { from ≤ length (texts tokens.now) }
    ensures { IsAnswer tokens.now from result }
{
    let (raw, next) = match part_at::<Kind, RawKernel>(alloc, tokens, from) {
        Ok(found) => found,
        Err(PartFault::Syntax { place, kind }) => return Err(KernelFault::Syntax { place, kind }),
        Err(PartFault::Memory) => return Err(KernelFault::Memory),
    };
    match judge(alloc, tokens, &raw) {
        Ok(kernel) => Ok((kernel, next)),
        Err(Unkept::Rule { place, rule }) => Err(KernelFault::Rule { place, rule, next }),
        Err(Unkept::Memory) => Err(KernelFault::Memory),
    }
}

/// Law: where a kernel that breaks no rule stands, its tree is the only answer that
/// `parse` may give, besides want of memory.
pub fn one_answer()
    ensures { (tokens : Tokenized) (from next : ℕ) (tree : Tree) (answer : Result (Tree × ℕ) KernelFault) →
        ParsesTo tokens from next tree → IsAnswer tokens from answer → (answer ≡ Ok (tree, next)) ⊎ (answer ≡ Err Memory) }
{}

/// A text of the kernel: the words of its tree, production by production, with a blank between two. Linear in the tree and
/// in how many numbers its constants are written as.
pub fn print(alloc: Global, kernel: &Kernel) -> Result<Vec<u8>, NoMemory>
    ensures words { IfOk result (λ text. text.items ≡ joined (words_of kernel.now)) }
    ensures parsed { IfOk result (λ text. IsTextOf text.items kernel.now) }
{
    tree_text(alloc, kernel.tree())
}
