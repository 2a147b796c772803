//! Rules 8 and 9: the numbers of each index array are in its range, and go on as it says.

ghost use Rattle.std.specs.Prelude.{◌≡◌, ◌<◌, ◌^◌, ◌++◌, ◌∷◌, None, [], map, flat_map, vec_items, length, All, IfOk, OnOk};
ghost use Rattle.spf_term.specs.Bounded.{AreWithin, IsBounded};
ghost use Rattle.spf_kernel.specs.Bounded.{IsBoundedDecl};
ghost use Rattle.spf_kernel.specs.TreeNames.{tables_of};
ghost use Rattle.spf_store.specs.Shaped.{outer_value};
ghost use Rattle.spf_input.specs.Given.{numbers_of};
ghost use Rattle.spf_input.specs.Rules.{bad_entry_of, bad_trend_of, bend_from, first, first_outside, follows, found_at, is_entry, large_number};
ghost use Rattle.spf_input.specs.Tested.{Tests};

use crate::fault::{InputFault, refused};
use crate::lookup::Entries;
use spf_base::{Name, NoMemory};
use spf_kernel::tree::{Decl, Trend};
use spf_store::outer_value;
use spf_term::{Env, Term};
use std::alloc::Global;
use std::ops::Range;

/// The greatest number of an index array.
const MOST: i64 = 4_194_304;

/// Whether a number is in the range of an index array.
fn is_entry(range: &Range<i64>, number: &i64) -> bool
    ensures { result ≡ is_entry range.now.start range.now.end number.now }
{
    range.start <= *number && *number < range.end && -MOST <= *number && *number <= MOST
}

/// The place of the first number that isn't in the range. Linear in the numbers.
fn first_outside(range: &Range<i64>, numbers: &[i64]) -> Option<u32>
    requires { length numbers.now < 2 ^ 32 }
    ensures { result ≡ first_outside range.now.start range.now.end numbers.now }
{
    let mut place = 0;
    for number in numbers {
        if !is_entry(range, number) {
            return Some(place);
        }
        place += 1;
    }
    None
}

/// The numbers of an index array with this range, where they keep rule 8. Linear in them.
fn read_table(
    alloc: Global,
    env: &Env,
    entries: &Entries,
    name: &Name,
    low: &Term,
    high: &Term,
) -> Result<Vec<i64>, InputFault>
    requires within { AreWithin env.now [] }
    requires low { IsBounded low.now }
    requires high { IsBounded high.now }
    requires fit { large_number entries.now ≡ None }
    ensures tests { Tests 8 (found_at name.now (first_outside (outer_value env.now low.now) (outer_value env.now high.now) (numbers_of entries.now name.now))) result }
    ensures numbers { IfOk result (λ table. table.items ≡ numbers_of entries.now name.now) }
    ensures few { IfOk result (λ table. length table.items < 2 ^ 32) }
{
    let mut table = Vec::new(alloc);
    entries.push_numbers(name.bytes(), &mut table)?;
    let range = outer_value(env, low)..outer_value(env, high);
    match first_outside(&range, table.as_slice()) {
        Some(place) => Err(refused(alloc, name.bytes(), place, 8)),
        None => Ok(table),
    }
}

fn push_table(tables: &mut Vec<Vec<i64>>, table: Vec<i64>) -> Result<(), NoMemory>
    ensures { OnOk result (map vec_items tables.new.items ≡ map vec_items tables.old.items ++ table.items ∷ []) }
{
    Ok(tables.push(table)?)
}

/// Puts the numbers of the index array of a declaration behind others, where they keep rule 8.
fn push_decl(
    alloc: Global,
    env: &Env,
    entries: &Entries,
    decl: &Decl,
    tables: &mut Vec<Vec<i64>>,
) -> Result<(), InputFault>
    requires within { AreWithin env.now [] }
    requires bounded { IsBoundedDecl decl.now }
    requires fit { large_number entries.now ≡ None }
    ensures tests { Tests 8 (bad_entry_of env.now entries.now decl.now) result }
    ensures tables { OnOk result (map vec_items tables.new.items ≡ map vec_items tables.old.items ++ map (numbers_of entries.now) (tables_of decl.now)) }
{
    match decl {
        Decl::Index {
            name,
            low,
            high,
            ..
        } => {
            match read_table(alloc, env, entries, name, low, high) {
                Ok(table) => Ok(push_table(tables, table)?),
                Err(fault) => Err(fault),
            }
        }
        Decl::Params { .. } | Decl::Values { .. } => Ok(()),
    }
}

/// The numbers of the index arrays, where rule 8 is kept. Linear in them.
pub(crate) fn read_tables(
    alloc: Global,
    env: &Env,
    entries: &Entries,
    decls: &[Decl],
) -> Result<Vec<Vec<i64>>, InputFault>
    requires within { AreWithin env.now [] }
    requires bounded { All IsBoundedDecl decls.now }
    requires fit { large_number entries.now ≡ None }
    ensures tests { Tests 8 (first (bad_entry_of env.now entries.now) decls.now) result }
    ensures tables { IfOk result (λ tables. map vec_items tables.items ≡ map (numbers_of entries.now) (flat_map tables_of decls.now)) }
{
    let mut tables = Vec::new(alloc);
    for decl in decls {
        push_decl(alloc, env, entries, decl, &mut tables)?;
    }
    Ok(tables)
}

/// Whether a number may stand behind another in an array with this trend.
fn follows(trend: Trend, before: &i64, number: &i64) -> bool
    ensures { result ≡ follows trend before.now number.now }
{
    match trend {
        Trend::Free => true,
        Trend::Monotone => *before <= *number,
        Trend::Strict => *before < *number,
    }
}

/// The place of the first number that may not stand behind the one before it. Linear in the numbers.
fn bend(trend: Trend, numbers: &[i64]) -> Option<u32>
    requires { length numbers.now < 2 ^ 32 }
    ensures { result ≡ bend_from trend 0 numbers.now }
{
    for place in 1..numbers.len() {
        if !follows(trend, &numbers[place - 1], &numbers[place]) {
            return Some(place as u32);
        }
    }
    None
}

fn test_trend(alloc: Global, entries: &Entries, name: &Name, trend: Trend) -> Result<(), InputFault>
    requires { large_number entries.now ≡ None }
    ensures { Tests 9 (found_at name.now (bend_from trend 0 (numbers_of entries.now name.now))) result }
{
    let mut table = Vec::new(alloc);
    entries.push_numbers(name.bytes(), &mut table)?;
    match bend(trend, table.as_slice()) {
        Some(place) => Err(refused(alloc, name.bytes(), place, 9)),
        None => Ok(()),
    }
}

fn test_decl(alloc: Global, entries: &Entries, decl: &Decl) -> Result<(), InputFault>
    requires { large_number entries.now ≡ None }
    ensures { Tests 9 (bad_trend_of entries.now decl.now) result }
{
    match decl {
        Decl::Index { name, trend, .. } => test_trend(alloc, entries, name, *trend),
        Decl::Params { .. } | Decl::Values { .. } => Ok(()),
    }
}

/// Rule 9: the numbers of each index array go on as it says. Linear in them.
pub(crate) fn test_trends(
    alloc: Global,
    entries: &Entries,
    decls: &[Decl],
) -> Result<(), InputFault>
    requires { large_number entries.now ≡ None }
    ensures { Tests 9 (first (bad_trend_of entries.now) decls.now) result }
{
    for decl in decls {
        test_decl(alloc, entries, decl)?;
    }
    Ok(())
}
