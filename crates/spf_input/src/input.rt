//! The input part of a bundle: its eleven rules one after the other, and what is given to the kernel where all are kept.

ghost use Rattle.std.specs.Prelude.{◌≡◌, [], None, map, flat_map, vec_items, All, IfOk};
ghost use Rattle.spf_lex.specs.Tokens.{texts};
ghost use Rattle.spf_term.specs.Bounded.{AreWithin};
ghost use Rattle.spf_kernel.specs.Bounded.{IsBoundedDecl, IsBoundedTree};
ghost use Rattle.spf_kernel.specs.Parsed.{IsParsed};
ghost use Rattle.spf_kernel.specs.TreeNames.{tables_of};
ghost use Rattle.spf_store.specs.Accepted.{IsAccepted};
ghost use Rattle.spf_store.specs.Shaped.{data_of, size};
ghost use Rattle.spf_input.specs.Given.{given_at, numbers_of};
ghost use Rattle.spf_input.specs.Numbers.{cells_of, outer_env};
ghost use Rattle.spf_input.specs.Rules.{large_number};
ghost use Rattle.spf_input.specs.Tested.{AreKept, AreNamed, IsInputAnswer, TestsAll, of_bounds, of_names, of_numbers, of_sizes, of_tables};

use crate::bounds::{test_bounds, test_steps};
use crate::cells::read_cells;
use crate::entries::RawEntry;
use crate::fault::InputFault;
use crate::laws::kept_input_is_accepted;
use crate::lookup::{Entries, test_given};
use crate::names::test_declared;
use crate::params::read_params;
use crate::ranges::{read_tables, test_trends};
use crate::sizes::{test_lengths, test_sizes};
use spf_base::NoMemory;
use spf_kernel::tree::{Decl, Tree};
use spf_lex::Tokens;
use spf_space::ArrayShape;
use spf_store::{accepted_numbers_are_small, array_shapes};
use spf_term::Env;
use sqlite_items::Items;
use std::alloc::Global;

/// What a kernel is given.
#[derive(Drop)]
pub(crate) struct KernelInput {
    pub env: Env,
    pub cells: Vec<i64>,
    pub arrays: Items<ArrayShape>,
    pub steps: u32,
}

/// The entries, where rules 1 to 3 are kept. Linear in the names on average.
fn read_names<'a>(
    alloc: Global,
    tree: &Tree,
    tokens: &'a Tokens<'a>,
    entries: &'a [RawEntry],
) -> Result<Entries<'a>, InputFault>
    requires named { AreNamed (texts tokens.now) entries.now }
    ensures tests { TestsAll 1 (of_names tree.now (map (given_at (texts tokens.now)) entries.now)) result }
    ensures given { IfOk result (λ all. all ≡ map (given_at (texts tokens.now)) entries.now) }
{
    test_declared(alloc, tree, tokens, entries)?;
    let entries = Entries::new(alloc, tokens, entries)?;
    test_given(alloc, tree, &entries)?;
    Ok(entries)
}

/// The parameters alone, where rules 4 and 5 are kept. Linear in the numbers.
fn read_outer(alloc: Global, tree: &Tree, entries: &Entries) -> Result<Env, InputFault>
    ensures tests { TestsAll 4 (of_numbers tree.now entries.now) result }
    ensures env { IfOk result (λ env. env ≡ outer_env tree.now entries.now) }
    ensures within { IfOk result (λ env. AreWithin env []) }
{
    let params = read_params(alloc, tree, entries)?;
    entries.test_large(alloc)?;
    Ok(Env {
        params,
        tables: Vec::new(alloc),
    })
}

/// Rules 6 and 7. Linear in the declarations and in the numbers.
fn test_arrays(
    alloc: Global,
    outer: &Env,
    entries: &Entries,
    decls: &[Decl],
) -> Result<(), InputFault>
    requires within { AreWithin outer.now [] }
    requires bounded { All IsBoundedDecl decls.now }
    ensures { TestsAll 6 (of_sizes outer.now entries.now decls.now) result }
{
    test_sizes(alloc, outer, decls)?;
    test_lengths(alloc, outer, entries, decls)
}

/// The index arrays, where rules 8 and 9 are kept. Linear in the declarations and in the numbers.
fn read_trending(
    alloc: Global,
    outer: &Env,
    entries: &Entries,
    decls: &[Decl],
) -> Result<Vec<Vec<i64>>, InputFault>
    requires within { AreWithin outer.now [] }
    requires bounded { All IsBoundedDecl decls.now }
    requires fit { large_number entries.now ≡ None }
    ensures tests { TestsAll 8 (of_tables outer.now entries.now decls.now) result }
    ensures tables { IfOk result (λ tables. map vec_items tables.items ≡ map (numbers_of entries.now) (flat_map tables_of decls.now)) }
{
    let tables = read_tables(alloc, outer, entries, decls)?;
    test_trends(alloc, entries, decls)?;
    Ok(tables)
}

/// The number of steps, where rules 10 and 11 are kept. Linear in the loops.
fn read_steps(alloc: Global, outer: &Env, tree: &Tree) -> Result<u32, InputFault>
    requires within { AreWithin outer.now [] }
    requires bounded { IsBoundedTree tree.now }
    ensures tests { TestsAll 10 (of_bounds outer.now tree.now) result }
    ensures steps { IfOk result (λ steps. steps ≡ size outer.now tree.now.steps) }
{
    let steps = test_steps(alloc, outer, &tree.steps)?;
    test_bounds(alloc, outer, tree.loops.as_slice())?;
    Ok(steps)
}

/// What the kernel is given, where all rules are kept. Linear in the declarations and in the numbers.
fn lay_out(
    alloc: Global,
    tree: &Tree,
    entries: &Entries,
    env: Env,
    steps: u32,
) -> Result<KernelInput, NoMemory>
    requires bounded { IsBoundedTree tree.now }
    requires accepted { IsAccepted env tree.now }
    requires fit { large_number entries.now ≡ None }
    ensures env { IfOk result (λ input. input.env ≡ env) }
    ensures cells { IfOk result (λ input. input.cells.items ≡ cells_of tree.now entries.now) }
    ensures arrays { IfOk result (λ input. input.arrays ≡ data_of env tree.now) }
    ensures steps { IfOk result (λ input. input.steps ≡ steps) }
{
    accepted_numbers_are_small();
    let decls = tree.decls.as_slice();
    let arrays = array_shapes(alloc, &env, decls)?;
    Ok(KernelInput {
        env,
        cells: read_cells(alloc, entries, decls)?,
        arrays,
        steps,
    })
}

/// What the kernel is given by entries whose names keep the rules. Linear in the kernel and in the numbers.
fn read_numbers(alloc: Global, tree: &Tree, entries: &Entries) -> Result<KernelInput, InputFault>
    requires parsed { IsParsed tree.now }
    requires bounded { IsBoundedTree tree.now }
    requires named { AreKept (of_names tree.now entries.now) }
    ensures { IsInputAnswer tree.now entries.now result }
{
    kept_input_is_accepted();
    let outer = read_outer(alloc, tree, entries)?;
    let decls = tree.decls.as_slice();
    test_arrays(alloc, &outer, entries, decls)?;
    let tables = read_trending(alloc, &outer, entries, decls)?;
    let steps = read_steps(alloc, &outer, tree)?;
    let env = Env {
        params: outer.params,
        tables,
    };
    Ok(lay_out(alloc, tree, entries, env, steps)?)
}

/// What the kernel is given by these entries, where they keep the rules. Linear in the kernel and in the numbers that are
/// given, and in the names on average; takes 8 bytes for each number.
pub(crate) fn read_input(
    alloc: Global,
    tree: &Tree,
    tokens: &Tokens,
    entries: &[RawEntry],
) -> Result<KernelInput, InputFault>
    requires parsed { IsParsed tree.now }
    requires bounded { IsBoundedTree tree.now }
    requires named { AreNamed (texts tokens.now) entries.now }
    ensures { IsInputAnswer tree.now (map (given_at (texts tokens.now)) entries.now) result }
{
    let entries = read_names(alloc, tree, tokens, entries)?;
    read_numbers(alloc, tree, &entries)
}
