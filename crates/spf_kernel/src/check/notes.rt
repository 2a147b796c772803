//! The notes of a raw tree, each checked as it is found.
#![tactic(auto, using(crate::proofs::Taking::first, crate::proofs::Taking::then, crate::proofs::Taking::none, std::proofs::lemmas::Grind::common_steps))]

ghost use Rattle.std.specs.Prelude.{◌≡◌, ◌-◌, true, List, [], ◌∷◌, ◌++◌, length, map, flat_map, OnOk, IfOk};
ghost use Rattle.spf_kernel.specs.check.State.{Takes};
ghost use Rattle.spf_kernel.specs.Types.{Note, Scope};
ghost use Rattle.spf_kernel.specs.Notes.{note, mark, mono_head, number_limit, number_notes, ix_monomials, mono_monomials, atom_monomials, monomial_limit, excess_notes, ix_notes, mono_notes, atom_notes, expression_notes, read_notes, fact_notes, value_notes};
ghost use Rattle.spf_kernel.specs.Notes.{ix_head, conds_head, assign_notes, cond_notes, guard_notes, part_notes, item_notes, loop_notes, cells_notes, param_note, head_notes, decl_notes, kernel_notes};

use crate::check::state::Check;
use crate::note::{Says, Scope, Sort, Spot};
use crate::raw::{
    RawAssign, RawAtom, RawCond, RawDecl, RawFactor, RawGuard, RawItem, RawIx, RawKernel, RawLoop,
    RawMono, RawPart, RawSized, RawSummand, RawValue,
};
use spf_base::NoMemory;
use spf_lex::Token;

/// Where an index expression has no monomial, or an `if` no condition, which is nowhere.
const NO_TOKEN: Token = Token { at: 0, value: 0 };

/// How large a number of an index expression is at most.
const LARGEST_NUMBER: u64 = 1 << 22;

/// How large such a number is in front of `*` at most.
const LARGEST_FACTOR: u64 = 1 << 20;

/// Of an index expression.
const MOST_MONOMIALS: usize = 64;

/// Of a loop's bound.
const MOST_BOUND_MONOMIALS: usize = 8;

/// A part of a raw tree that says something, where these variables are in scope.
trait Noted {
    ghost noted: { Scope → Self → List Note };

    /// Checks its notes. Linear in it.
    fn note(&self, check: &mut Check, scope: Scope) -> Result<(), NoMemory>
        ensures { OnOk result (Takes check.old (noted scope self.now) check.new) };
}

/// Checks the notes of each part.
fn note_all<T: Noted>(check: &mut Check, scope: Scope, parts: &[T]) -> Result<(), NoMemory>
    ensures { OnOk result (Takes check.old (flat_map (T.noted scope) parts.now) check.new) }
{
    for part in parts {
        part.note(check, scope)?;
    }
    Ok(())
}

/// The first token of a monomial.
fn mono_head(mono: &RawMono) -> Token
    ensures { result ≡ mono_head mono.now }
{
    match mono {
        RawMono::Number(number, _) => *number,
        RawMono::Atom(atom) => atom.name,
    }
}

/// Checks a note that is of no name.
fn take_mark(check: &mut Check, token: Token, says: Says) -> Result<(), NoMemory>
    ensures { OnOk result (Takes check.old (mark token says ∷ []) check.new) }
{
    check.take(token, says, Scope::Nothing)
}

// ---- index expressions

/// How large a number may be, in front of `*` or not.
fn number_limit(times: bool) -> u64
    ensures { result ≡ number_limit times }
{
    if times {
        LARGEST_FACTOR
    } else {
        LARGEST_NUMBER
    }
}

/// Rule 5, of one number.
fn note_number(check: &mut Check, times: bool, number: Token) -> Result<(), NoMemory>
    ensures { OnOk result (Takes check.old (number_notes times number) check.new) }
{
    if number.value > number_limit(times) {
        take_mark(check, number, Says::Large)
    } else {
        Ok(())
    }
}

#[cycle(ix)]
#[tactic(auto, using(crate::proofs::NoteEquations::atom_notes_are, crate::proofs::Taking::first, crate::proofs::Taking::none, std::proofs::lemmas::Grind::common_steps))]
fn note_atom(check: &mut Check, spot: Spot, scope: Scope, atom: &RawAtom) -> Result<(), NoMemory>
    ensures { OnOk result (Takes check.old (atom_notes spot scope atom.now) check.new) }
{
    let brackets = atom.at.is_some();
    check.take(atom.name, Says::Used { brackets, spot }, scope)?;
    match &atom.at {
        Some(at) => note_ix(check, spot, scope, at.get()),
        None => Ok(()),
    }
}

/// A number in front of `*`, and a name behind it.
#[cycle(ix)]
fn note_product(
    check: &mut Check,
    spot: Spot,
    scope: Scope,
    number: Token,
    atom: &RawAtom,
) -> Result<(), NoMemory>
    ensures { OnOk result (Takes check.old (number_notes true number ++ atom_notes spot scope atom.now) check.new) }
{
    note_number(check, true, number)?;
    note_atom(check, spot, scope, atom)
}

#[cycle(ix)]
fn note_mono(check: &mut Check, spot: Spot, scope: Scope, mono: &RawMono) -> Result<(), NoMemory>
    ensures { OnOk result (Takes check.old (mono_notes spot scope mono.now) check.new) }
{
    match mono {
        RawMono::Number(number, None) => note_number(check, false, *number),
        RawMono::Number(number, Some(atom)) => note_product(check, spot, scope, *number, atom),
        RawMono::Atom(atom) => note_atom(check, spot, scope, atom),
    }
}

#[cycle(ix)]
#[tactic(auto, using(crate::proofs::NoteEquations::ix_notes_are, crate::proofs::Taking::then, crate::proofs::Taking::none, std::proofs::lemmas::Grind::common_steps))]
fn note_ix(check: &mut Check, spot: Spot, scope: Scope, ix: &RawIx) -> Result<(), NoMemory>
    ensures { OnOk result (Takes check.old (ix_notes spot scope ix.now) check.new) }
{
    for step in ix.steps.as_slice() {
        note_mono(check, spot, scope, &step.mono)?;
    }
    Ok(())
}

/// Rule 9, of one monomial: where there is no room for it, it is noted. Gives the room that is left.
fn note_monomial(check: &mut Check, room: usize, token: Token) -> Result<usize, NoMemory>
    ensures notes { OnOk result (Takes check.old (excess_notes room (token ∷ [])) check.new) }
    ensures left { IfOk result (λ left. left ≡ room - 1) }
{
    if room == 0 {
        take_mark(check, token, Says::Excess)?;
        return Ok(0);
    }
    Ok(room - 1)
}

#[cycle(excess)]
#[tactic(auto, using(crate::proofs::NoteEquations::atom_monomials_are, crate::proofs::NoteEquations::none_in_excess, crate::proofs::Taking::none, std::proofs::lemmas::Grind::common_steps))]
fn excess_in_atom(check: &mut Check, room: usize, atom: &RawAtom) -> Result<usize, NoMemory>
    ensures notes { OnOk result (Takes check.old (excess_notes room (atom_monomials atom.now)) check.new) }
    ensures left { IfOk result (λ left. left ≡ room - length (atom_monomials atom.now)) }
{
    match &atom.at {
        Some(at) => excess_in_ix(check, room, at.get()),
        None => Ok(room),
    }
}

/// A monomial that begins with this token, and ends with a name.
#[cycle(excess)]
fn excess_from(
    check: &mut Check,
    room: usize,
    token: Token,
    atom: &RawAtom,
) -> Result<usize, NoMemory>
    ensures notes { OnOk result (Takes check.old (excess_notes room (token ∷ atom_monomials atom.now)) check.new) }
    ensures left { IfOk result (λ left. left ≡ room - length (token ∷ atom_monomials atom.now)) }
{
    let left = note_monomial(check, room, token)?;
    excess_in_atom(check, left, atom)
}

#[cycle(excess)]
fn excess_in_mono(check: &mut Check, room: usize, mono: &RawMono) -> Result<usize, NoMemory>
    ensures notes { OnOk result (Takes check.old (excess_notes room (mono_monomials mono.now)) check.new) }
    ensures left { IfOk result (λ left. left ≡ room - length (mono_monomials mono.now)) }
{
    match mono {
        RawMono::Number(number, None) => note_monomial(check, room, *number),
        RawMono::Number(number, Some(atom)) => excess_from(check, room, *number, atom),
        RawMono::Atom(atom) => excess_from(check, room, atom.name, atom),
    }
}

#[cycle(excess)]
#[tactic(auto, using(crate::proofs::NoteEquations::ix_monomials_are, crate::proofs::Taking::none, std::proofs::lemmas::Grind::common_steps))]
fn excess_in_ix(check: &mut Check, room: usize, ix: &RawIx) -> Result<usize, NoMemory>
    ensures notes { OnOk result (Takes check.old (excess_notes room (ix_monomials ix.now)) check.new) }
    ensures left { IfOk result (λ left. left ≡ room - length (ix_monomials ix.now)) }
{
    let mut left = room;
    for step in ix.steps.as_slice() {
        left = excess_in_mono(check, left, &step.mono)?;
    }
    Ok(left)
}

/// How many monomials an index expression may have.
fn monomial_limit(spot: Spot) -> usize
    ensures { result ≡ monomial_limit spot }
{
    match spot {
        Spot::Bound => MOST_BOUND_MONOMIALS,
        Spot::Head | Spot::Body | Spot::Factor | Spot::Target => MOST_MONOMIALS,
    }
}

/// An index expression that stands in no other one. Linear in it.
fn note_expression(check: &mut Check, spot: Spot, scope: Scope, ix: &RawIx) -> Result<(), NoMemory>
    ensures { OnOk result (Takes check.old (expression_notes spot scope ix.now) check.new) }
{
    excess_in_ix(check, monomial_limit(spot), ix)?;
    note_ix(check, spot, scope, ix)
}

// ---- values

/// A name as a factor of a value, and what stands in the brackets behind it. Linear in it.
fn note_read(check: &mut Check, scope: Scope, atom: &RawAtom) -> Result<(), NoMemory>
    ensures { OnOk result (Takes check.old (read_notes scope atom.now) check.new) }
{
    let brackets = atom.at.is_some();
    let spot = Spot::Factor;
    take_mark(check, atom.name, Says::Factor)?;
    check.take(atom.name, Says::Used { brackets, spot }, scope)?;
    match &atom.at {
        Some(at) => note_expression(check, Spot::Body, scope, at.get()),
        None => Ok(()),
    }
}

#[cycle(value)]
#[tactic(auto, using(crate::proofs::NoteEquations::paren_notes_are, std::proofs::lemmas::Grind::common_steps))]
fn note_fact(check: &mut Check, scope: Scope, fact: &RawFactor) -> Result<(), NoMemory>
    ensures { OnOk result (Takes check.old (fact_notes scope fact.now) check.new) }
{
    match fact {
        RawFactor::Number(number) => take_mark(check, *number, Says::Factor),
        RawFactor::Paren(value) => note_value(check, scope, value.get()),
        RawFactor::Name(atom) => note_read(check, scope, atom),
    }
}

#[cycle(value)]
fn note_summand(check: &mut Check, scope: Scope, summand: &RawSummand) -> Result<(), NoMemory>
    ensures { OnOk result (Takes check.old (flat_map (fact_notes scope) summand.now.facts) check.new) }
{
    for fact in summand.facts.as_slice() {
        note_fact(check, scope, fact)?;
    }
    Ok(())
}

/// A value. Linear in it.
#[cycle(value)]
#[tactic(auto, using(crate::proofs::NoteEquations::value_notes_are, crate::proofs::Taking::then, crate::proofs::Taking::none, std::proofs::lemmas::Grind::common_steps))]
fn note_value(check: &mut Check, scope: Scope, value: &RawValue) -> Result<(), NoMemory>
    ensures { OnOk result (Takes check.old (value_notes scope value.now) check.new) }
{
    for summand in value.summands.as_slice() {
        note_summand(check, scope, summand)?;
    }
    Ok(())
}

// ---- statements

impl Noted for RawAssign {
    ghost noted = { assign_notes };

    fn note(&self, check: &mut Check, scope: Scope) -> Result<(), NoMemory> {
        let says = Says::Used {
            brackets: true,
            spot: Spot::Target,
        };
        check.take(self.array, says, scope)?;
        note_expression(check, Spot::Body, scope, &self.at)?;
        note_value(check, scope, &self.value)
    }
}

/// The first token of an index expression.
fn ix_head(ix: &RawIx) -> Token
    ensures { result ≡ ix_head ix.now }
{
    match ix.steps.as_slice() {
        [first, ..] => first.minus.unwrap_or(mono_head(&first.mono)),
        [] => NO_TOKEN,
    }
}

impl Noted for RawCond {
    ghost noted = { cond_notes };

    fn note(&self, check: &mut Check, scope: Scope) -> Result<(), NoMemory> {
        take_mark(check, ix_head(&self.left), Says::Condition)?;
        note_expression(check, Spot::Body, scope, &self.left)?;
        note_expression(check, Spot::Body, scope, &self.right)
    }
}

/// The first token of the conditions of an `if`.
fn conds_head(conds: &[RawCond]) -> Token
    ensures { result ≡ conds_head conds.now }
{
    match conds {
        [first, ..] => ix_head(&first.left),
        [] => NO_TOKEN,
    }
}

fn note_guard(check: &mut Check, scope: Scope, guard: &RawGuard) -> Result<(), NoMemory>
    ensures { OnOk result (Takes check.old (guard_notes scope guard.now) check.new) }
{
    take_mark(check, conds_head(guard.conds.as_slice()), Says::Guard)?;
    note_all(check, scope, guard.conds.as_slice())?;
    note_all(check, scope, guard.body.as_slice())
}

impl Noted for RawPart {
    ghost noted = { part_notes };

    fn note(&self, check: &mut Check, scope: Scope) -> Result<(), NoMemory> {
        match self {
            RawPart::Assign(assign) => assign.note(check, scope),
            RawPart::Guard(guard) => note_guard(check, scope, guard),
        }
    }
}

// ---- loops

/// What stands in the loop of this variable.
fn note_item(check: &mut Check, outer: Token, item: &RawItem) -> Result<(), NoMemory>
    ensures { OnOk result (Takes check.old (item_notes outer item.now) check.new) }
{
    let scope = Scope::Within(outer);
    match item {
        RawItem::Part(part) => part.note(check, scope),
        RawItem::Inner(range, parts) => {
            check.take(range.var, Says::Variable, scope)?;
            note_expression(check, Spot::Body, scope, &range.low)?;
            note_expression(check, Spot::Body, scope, &range.high)?;
            note_all(check, Scope::Inside(outer, range.var), parts.as_slice())
        }
    }
}

fn note_items(check: &mut Check, outer: Token, items: &[RawItem]) -> Result<(), NoMemory>
    ensures { OnOk result (Takes check.old (flat_map (item_notes outer) items.now) check.new) }
{
    for item in items {
        note_item(check, outer, item)?;
    }
    Ok(())
}

impl Noted for RawLoop {
    ghost noted = { λ scope. loop_notes };

    #[tactic(auto, using(crate::proofs::Taking::first, crate::proofs::Taking::then, crate::proofs::Taking::none, std::proofs::lemmas::Grind::common_steps), unfolding(crate::specs::Notes::loop_notes))]
    fn note(&self, check: &mut Check, _scope: Scope) -> Result<(), NoMemory> {
        check.take(self.name, Says::Declared(Sort::Loop), Scope::Nothing)?;
        check.take(self.range.var, Says::Variable, Scope::Nothing)?;
        note_expression(check, Spot::Bound, Scope::Nothing, &self.range.low)?;
        note_expression(check, Spot::Bound, Scope::Nothing, &self.range.high)?;
        note_items(check, self.range.var, self.items.as_slice())
    }
}

// ---- declarations

fn note_head(check: &mut Check, ix: &RawIx) -> Result<(), NoMemory>
    ensures { OnOk result (Takes check.old (head_notes ix.now) check.new) }
{
    note_expression(check, Spot::Head, Scope::Nothing, ix)
}

fn note_params(check: &mut Check, names: &[Token]) -> Result<(), NoMemory>
    ensures { OnOk result (Takes check.old (map param_note names.now) check.new) }
{
    for name in names {
        check.take(*name, Says::Declared(Sort::Param), Scope::Nothing)?;
    }
    Ok(())
}

impl Noted for RawSized {
    ghost noted = { λ scope. cells_notes };

    fn note(&self, check: &mut Check, _scope: Scope) -> Result<(), NoMemory> {
        check.take(self.name, Says::Declared(Sort::Data), Scope::Nothing)?;
        note_head(check, &self.size)
    }
}

impl Noted for RawDecl {
    ghost noted = { λ scope. decl_notes };

    fn note(&self, check: &mut Check, scope: Scope) -> Result<(), NoMemory> {
        match self {
            RawDecl::Params(names) => note_params(check, names.as_slice()),
            RawDecl::Index {
                array,
                low,
                high,
                ..
            } => {
                let says = Says::Declared(Sort::Index);
                check.take(array.name, says, Scope::Nothing)?;
                note_head(check, &array.size)?;
                note_head(check, low)?;
                note_head(check, high)
            }
            RawDecl::Values(arrays) => note_all(check, scope, arrays.as_slice()),
        }
    }
}

/// Checks the notes of a kernel. Linear in it, and in the bytes of its names on average.
#[tactic(auto, using(crate::proofs::Taking::then), unfolding(crate::specs::Notes::kernel_notes))]
pub(crate) fn note_kernel(check: &mut Check, kernel: &RawKernel) -> Result<(), NoMemory>
    ensures { OnOk result (Takes check.old (kernel_notes kernel.now) check.new) }
{
    note_all(check, Scope::Nothing, kernel.decls.as_slice())?;
    note_head(check, &kernel.steps)?;
    note_all(check, Scope::Nothing, kernel.loops.as_slice())
}
