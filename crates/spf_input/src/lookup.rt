//! The entries of the input part by their names, rule 2, which they keep, and rule 3: each declared name is given.

ghost use Rattle.std.specs.Prelude.{◌≡◌, ◌<◌, ◌^◌, ◌++◌, None, length, map, slice_get, FitsSigned, IfOk, OnOk};
ghost use Rattle.std.specs.Int.{w64};
ghost use Rattle.std.specs.List.{AllByRecursion};
ghost use Rattle.spf_lex.specs.Tokens.{texts};
ghost use Rattle.spf_input.specs.Given.{given_at, numbers_of};
ghost use Rattle.spf_input.specs.Rules.{first, given_names, is_among, large_number, missing, names_of, repeated, unless};
ghost use Rattle.spf_input.specs.Tested.{AreNamed, Tests, listed, numbers_at};

use crate::entries::RawEntry;
use crate::fault::{InputFault, refused};
use crate::given::Numbers;
use crate::names::{NameSet, text_of};
use spf_base::{Name, NoMemory};
use spf_kernel::tree::{DataDecl, Decl, Tree};
use spf_lex::Tokens;
use std::alloc::Global;
use std::marker::Model;

/// The entries of the input part, which have different names, seen as the list of what they give.
#[derive(Drop)]
pub(crate) struct Entries<'a> {
    tokens: &'a Tokens<'a>,
    entries: &'a [RawEntry],
    names: NameSet<'a>,
}

impl<'a> Model for Entries<'a> {
    ghost use Rattle.std.specs.Prelude.{◌≡◌, List, map};
    ghost use Rattle.spf_lex.specs.Tokens.{texts};
    ghost use Rattle.spf_input.specs.Given.{Given, given_at};
    ghost use Rattle.spf_input.specs.Rules.{given_names};
    ghost use Rattle.spf_input.specs.Tested.{AreNamed};

    ghost Value = { List Given };

    ghost view = { λ all. map (given_at (texts all.tokens.now)) all.entries.now };

    ghost invariant = { λ all. (all.names ≡ given_names (map (given_at (texts all.tokens.now)) all.entries.now)) × AreNamed (texts all.tokens.now) all.entries.now };
}

/// The names of the entries, where rule 2 is kept: none is given twice. Linear in the names on average.
fn new_names<'a>(
    alloc: Global,
    tokens: &'a Tokens<'a>,
    entries: &'a [RawEntry],
) -> Result<NameSet<'a>, InputFault>
    requires { AreNamed (texts tokens.now) entries.now }
    ensures tests { Tests 2 (repeated (map (given_at (texts tokens.now)) entries.now)) result }
    ensures names { IfOk result (λ names. names ≡ given_names (map (given_at (texts tokens.now)) entries.now)) }
{
    let mut names = NameSet::new(alloc);
    for entry in entries {
        let name = text_of(tokens, entry.name);
        if names.contains(name) {
            return Err(refused(alloc, name, 0, 2));
        }
        names.insert(name)?;
    }
    Ok(names)
}

/// Rule 5: no number of these entries is 2^63 without `-`. Linear in their numbers.
fn test_large(alloc: Global, tokens: &Tokens, entries: &[RawEntry]) -> Result<(), InputFault>
    requires { AreNamed (texts tokens.now) entries.now }
    ensures { Tests 5 (large_number (map (given_at (texts tokens.now)) entries.now)) result }
{
    for entry in entries {
        if let Some(place) = numbers_of(&*tokens, entry).first_large() {
            return Err(refused(alloc, text_of(&*tokens, entry.name), place, 5));
        }
    }
    Ok(())
}

/// The numbers of an entry.
#[tactic(auto, using(crate::proofs::Fitting::many_between))]
fn numbers_of<'a>(tokens: &'a Tokens<'a>, entry: &RawEntry) -> Numbers<'a>
    ensures numbers { listed result ≡ (given_at (texts tokens.now) entry.now).numbers }
    ensures few { length (listed result) < 2 ^ 32 }
{
    if entry.from < tokens.len() {
        Numbers {
            tokens,
            at: entry.from + 1,
            to: entry.to,
        }
    } else {
        Numbers {
            tokens,
            at: entry.to,
            to: entry.to,
        }
    }
}

/// The numbers of the entry at a place, and none behind the last.
fn numbers_at<'a>(tokens: &'a Tokens<'a>, entries: &[RawEntry], place: usize) -> Numbers<'a>
    ensures numbers { listed result ≡ numbers_at (slice_get (map (given_at (texts tokens.now)) entries.now) place) }
    ensures few { length (listed result) < 2 ^ 32 }
{
    if place < entries.len() {
        numbers_of(tokens, &entries[place])
    } else {
        Numbers {
            tokens,
            at: 0,
            to: 0,
        }
    }
}

impl<'a> Entries<'a> {
    /// The entries, where rule 2 is kept: no name is given twice. Linear in the names on average.
    pub(crate) fn new(
        alloc: Global,
        tokens: &'a Tokens<'a>,
        entries: &'a [RawEntry],
    ) -> Result<Entries<'a>, InputFault>
        requires { AreNamed (texts tokens.now) entries.now }
        ensures tests { Tests 2 (repeated (map (given_at (texts tokens.now)) entries.now)) result }
        ensures given { IfOk result (λ all. all ≡ map (given_at (texts tokens.now)) entries.now) }
    {
        let names = new_names(alloc, tokens, entries)?;
        Ok(Entries {
            tokens,
            entries,
            names,
        })
    }

    /// Whether the name is given. Linear in the name on average.
    fn has(&self, name: &[u8]) -> bool
        ensures { result ≡ is_among (given_names self.now) name.now }
    {
        self.names.contains(name)
    }

    /// The numbers that are given for the name, and none where it isn't given. Linear in the name on average.
    pub(crate) fn numbers(&self, name: &[u8]) -> Numbers<'a>
        ensures numbers { listed result ≡ numbers_of self.now name.now }
        ensures few { length (numbers_of self.now name.now) < 2 ^ 32 }
        ensures fit { large_number self.now ≡ None → AllByRecursion (FitsSigned w64) (numbers_of self.now name.now) }
    {
        numbers_at(self.tokens, self.entries, self.names.number(name))
    }

    /// Puts the numbers that are given for the name behind others. Linear in them.
    pub(crate) fn push_numbers(&self, name: &[u8], list: &mut Vec<i64>) -> Result<(), NoMemory>
        requires { large_number self.now ≡ None }
        ensures numbers { OnOk result (list.new.items ≡ list.old.items ++ numbers_of self.now name.now) }
        ensures few { length (numbers_of self.now name.now) < 2 ^ 32 }
    {
        self.numbers(name).push_to(list)
    }

    /// Rule 5: no number is 2^63 without `-`. Linear in the numbers.
    pub(crate) fn test_large(&self, alloc: Global) -> Result<(), InputFault>
        ensures { Tests 5 (large_number self.now) result }
    {
        test_large(alloc, self.tokens, self.entries)
    }
}

fn test_name(alloc: Global, entries: &Entries, name: &Name) -> Result<(), InputFault>
    ensures { Tests 3 (unless (is_among (given_names entries.now) name.now) name.now) result }
{
    if entries.has(name.bytes()) {
        Ok(())
    } else {
        Err(refused(alloc, name.bytes(), 0, 3))
    }
}

fn test_names(alloc: Global, entries: &Entries, names: &[Name]) -> Result<(), InputFault>
    ensures { Tests 3 (first (λ name. unless (is_among (given_names entries.now) name) name) names.now) result }
{
    for name in names {
        test_name(alloc, entries, name)?;
    }
    Ok(())
}

fn test_arrays(alloc: Global, entries: &Entries, arrays: &[DataDecl]) -> Result<(), InputFault>
    ensures { Tests 3 (first (λ name. unless (is_among (given_names entries.now) name) name) (map (λ array. array.name) arrays.now)) result }
{
    for array in arrays {
        test_name(alloc, entries, &array.name)?;
    }
    Ok(())
}

fn test_decl(alloc: Global, entries: &Entries, decl: &Decl) -> Result<(), InputFault>
    ensures { Tests 3 (first (λ name. unless (is_among (given_names entries.now) name) name) (names_of decl.now)) result }
{
    match decl {
        Decl::Params { names } => test_names(alloc, entries, names.as_slice()),
        Decl::Index { name, .. } => test_name(alloc, entries, name),
        Decl::Values { arrays } => test_arrays(alloc, entries, arrays.as_slice()),
    }
}

/// Rule 3: each declared name is given. Linear in the declared names on average.
pub(crate) fn test_given(alloc: Global, tree: &Tree, entries: &Entries) -> Result<(), InputFault>
    ensures { Tests 3 (missing tree.now entries.now) result }
{
    for decl in tree.decls.as_slice() {
        test_decl(alloc, entries, decl)?;
    }
    Ok(())
}
