//! The parts of a loop's body in composed terms, which are listed in the order of the first tokens of what they stand for.

ghost use Rattle.std.specs.Prelude.{◌≡◌, ◌∷◌, [], ◌+◌, ◌++◌, ◌<◌, All, IfOk, OnOk, map};
ghost use Rattle.std.specs.List.{flat_map};
ghost use Rattle.spf_kernel.specs.Kept.{KeepsAssign, KeepsCond, KeepsFactor, KeepsGuard, KeepsItem, KeepsPart, KeepsValue};
ghost use Rattle.spf_kernel.specs.declared.tree.Factor.TheVariants.{Index, Var};
ghost use Rattle.spf_exec.specs.BodyTerms.{assign_terms, cond_terms, fact_terms, guard_terms, item_terms, part_terms, prod_terms, value_terms};
ghost use Rattle.spf_exec.specs.Composed.{composed, is_moved, packed_by};
ghost use Rattle.spf_exec.specs.Placeable.{CanPlace, IsPlaceable, placeable, rewriting_of};
ghost use Rattle.spf_exec.specs.Rewritten.{rewritten_assign, rewritten_cond, rewritten_fact, rewritten_guard, rewritten_item, rewritten_part, rewritten_prod, rewritten_value};

use crate::composition::composed;
use crate::terms::{applied, is_moved, variable};
use crate::values::as_value;
use spf_base::{Name, NoMemory};
use spf_kernel::tree::{Assign, Cond, Factor, Guard, Item, Part, Prod, Value};
use spf_perm::Perm;
use spf_term::{Term, numbers_are_within_the_size};
use sqlite_items::Items;
use std::alloc::Global;

/// What the parts of a loop's body are rewritten by: the iteration as a term of the position, and the arrays that are packed, by
/// functions from `packings` on.
#[derive(Drop)]
pub(crate) struct Placing<'a> {
    pub alloc: Global,
    pub iteration: &'a Term,
    pub arrays: &'a [Option<Perm>],
    pub packings: u32,
}

/// Adds a copy of the term to the list. Linear in the term.
fn listed(alloc: Global, term: Term, terms: &mut Items<Term>) -> Result<Term, NoMemory>
    ensures terms { OnOk result (terms.new ≡ terms.old ++ term ∷ []) }
    ensures made { IfOk result (λ made. made ≡ term) }
{
    terms.push(Term::copy(alloc, &term)?)?;
    Ok(term)
}

/// The packed place of a place of an array.
fn packed(placing: &Placing, array: u32, place: Term) -> Result<Term, NoMemory>
    requires placing { CanPlace placing.now }
    requires array { array < 64 }
    ensures { IfOk result (λ made. made ≡ packed_by (is_moved placing.now.arrays.now array) (placing.now.packings + array) place) }
{
    if is_moved(placing.arrays, array as usize) {
        return applied(placing.alloc, placing.packings + array, place);
    }
    Ok(place)
}

/// An index expression.
fn rewrite_index(placing: &Placing, term: &Term, terms: &mut Items<Term>) -> Result<Term, NoMemory>
    requires placing { CanPlace placing.now }
    requires placeable { IsPlaceable term.now }
    ensures terms { OnOk result (terms.new ≡ terms.old ++ (rewriting_of placing.now).index term.now ∷ []) }
    ensures made { IfOk result (λ made. made ≡ (rewriting_of placing.now).index term.now) }
{
    let term = composed(placing.alloc, placing.iteration, term)?;
    listed(placing.alloc, term, terms)
}

/// The subscript of a data array.
fn rewrite_cell(
    placing: &Placing,
    array: u32,
    sub: &Term,
    terms: &mut Items<Term>,
) -> Result<Term, NoMemory>
    requires placing { CanPlace placing.now }
    requires array { array < 64 }
    requires placeable { IsPlaceable sub.now }
    ensures terms { OnOk result (terms.new ≡ terms.old ++ (rewriting_of placing.now).cell array sub.now ∷ []) }
    ensures made { IfOk result (λ made. made ≡ (rewriting_of placing.now).cell array sub.now) }
{
    let place = composed(placing.alloc, placing.iteration, sub)?;
    let packed = packed(placing, array, place)?;
    listed(placing.alloc, packed, terms)
}

/// A loop variable.
fn rewrite_variable(
    placing: &Placing,
    number: u32,
    terms: &mut Items<Term>,
) -> Result<Factor, NoMemory>
    requires placing { CanPlace placing.now }
    requires number { number < 2 }
    ensures terms { OnOk result (terms.new ≡ terms.old ++ fact_terms (rewriting_of placing.now) (Var number)) }
    ensures made { IfOk result (λ made. made ≡ rewritten_fact (rewriting_of placing.now) (Var number)) }
{
    numbers_are_within_the_size();
    let variable = variable(placing.alloc, number)?;
    let term = rewrite_index(placing, &variable, terms)?;
    Ok(Factor::Paren(as_value(placing.alloc, &term)?))
}

/// An entry of an index array.
fn rewrite_entry(
    placing: &Placing,
    array: u32,
    sub: &Term,
    terms: &mut Items<Term>,
) -> Result<Factor, NoMemory>
    requires placing { CanPlace placing.now }
    requires placeable { IsPlaceable sub.now }
    ensures terms { OnOk result (terms.new ≡ terms.old ++ fact_terms (rewriting_of placing.now) (Index array sub.now)) }
    ensures made { IfOk result (λ made. made ≡ rewritten_fact (rewriting_of placing.now) (Index array sub.now)) }
{
    let place = composed(placing.alloc, placing.iteration, sub)?;
    let entry = applied(placing.alloc, array, place)?;
    let term = listed(placing.alloc, entry, terms)?;
    Ok(Factor::Paren(as_value(placing.alloc, &term)?))
}

#[cycle(rewrite_value)]
fn rewrite_factor(
    placing: &Placing,
    fact: &Factor,
    terms: &mut Items<Term>,
) -> Result<Factor, NoMemory>
    requires placing { CanPlace placing.now }
    requires placeable { KeepsFactor placeable fact.now }
    ensures terms { OnOk result (terms.new ≡ terms.old ++ fact_terms (rewriting_of placing.now) fact.now) }
    ensures made { IfOk result (λ made. made ≡ rewritten_fact (rewriting_of placing.now) fact.now) }
{
    match fact {
        Factor::Number(number) => Ok(Factor::Number(*number)),
        Factor::Param(number) => Ok(Factor::Param(*number)),
        Factor::Paren(inside) => {
            let value = rewrite_value(placing, inside, terms)?;
            Ok(Factor::Paren(value))
        }
        Factor::Var(number) => rewrite_variable(placing, *number, terms),
        Factor::Index { array, sub } => rewrite_entry(placing, *array, sub, terms),
        Factor::Cell { array, sub } => {
            let sub = rewrite_cell(placing, *array, sub, terms)?;
            Ok(Factor::Cell { array: *array, sub })
        }
    }
}

#[cycle(rewrite_value)]
fn rewrite_prod(placing: &Placing, prod: &Prod, terms: &mut Items<Term>) -> Result<Prod, NoMemory>
    requires placing { CanPlace placing.now }
    requires placeable { All (KeepsFactor placeable) prod.now.facts }
    ensures terms { OnOk result (terms.new ≡ terms.old ++ prod_terms (rewriting_of placing.now) prod.now) }
    ensures made { IfOk result (λ made. made ≡ rewritten_prod (rewriting_of placing.now) prod.now) }
{
    let minus = prod.minus;
    let mut facts = Items::new(placing.alloc);
    for fact in prod.facts.as_slice() {
        facts.push(rewrite_factor(placing, fact, terms)?)?;
    }
    Ok(Prod { minus, facts })
}

#[cycle(rewrite_value)]
fn rewrite_value(
    placing: &Placing,
    value: &Value,
    terms: &mut Items<Term>,
) -> Result<Value, NoMemory>
    requires placing { CanPlace placing.now }
    requires placeable { KeepsValue placeable value.now }
    ensures terms { OnOk result (terms.new ≡ terms.old ++ value_terms (rewriting_of placing.now) value.now) }
    ensures made { IfOk result (λ made. made ≡ rewritten_value (rewriting_of placing.now) value.now) }
{
    let mut prods = Items::new(placing.alloc);
    for prod in value.prods.as_slice() {
        prods.push(rewrite_prod(placing, prod, terms)?)?;
    }
    Ok(Value { prods })
}

fn rewrite_assign(
    placing: &Placing,
    assign: &Assign,
    terms: &mut Items<Term>,
) -> Result<Assign, NoMemory>
    requires placing { CanPlace placing.now }
    requires placeable { KeepsAssign placeable assign.now }
    ensures terms { OnOk result (terms.new ≡ terms.old ++ assign_terms (rewriting_of placing.now) assign.now) }
    ensures made { IfOk result (λ made. made ≡ rewritten_assign (rewriting_of placing.now) assign.now) }
{
    let sub = rewrite_cell(placing, assign.array, &assign.sub, terms)?;
    let value = rewrite_value(placing, &assign.value, terms)?;
    Ok(Assign {
        array: assign.array,
        sub,
        sign: assign.sign,
        value,
    })
}

fn rewrite_cond(placing: &Placing, cond: &Cond, terms: &mut Items<Term>) -> Result<Cond, NoMemory>
    requires placing { CanPlace placing.now }
    requires placeable { KeepsCond placeable cond.now }
    ensures terms { OnOk result (terms.new ≡ terms.old ++ cond_terms (rewriting_of placing.now) cond.now) }
    ensures made { IfOk result (λ made. made ≡ rewritten_cond (rewriting_of placing.now) cond.now) }
{
    let left = rewrite_index(placing, &cond.left, terms)?;
    let right = rewrite_index(placing, &cond.right, terms)?;
    Ok(Cond {
        left,
        sign: cond.sign,
        right,
    })
}

fn rewrite_conds(
    placing: &Placing,
    conds: &[Cond],
    terms: &mut Items<Term>,
) -> Result<Items<Cond>, NoMemory>
    requires placing { CanPlace placing.now }
    requires placeable { All (KeepsCond placeable) conds.now }
    ensures terms { OnOk result (terms.new ≡ terms.old ++ flat_map (cond_terms (rewriting_of placing.now)) conds.now) }
    ensures made { IfOk result (λ made. made ≡ map (rewritten_cond (rewriting_of placing.now)) conds.now) }
{
    let mut rewritten = Items::new(placing.alloc);
    for cond in conds {
        rewritten.push(rewrite_cond(placing, cond, terms)?)?;
    }
    Ok(rewritten)
}

fn rewrite_assigns(
    placing: &Placing,
    assigns: &[Assign],
    terms: &mut Items<Term>,
) -> Result<Items<Assign>, NoMemory>
    requires placing { CanPlace placing.now }
    requires placeable { All (KeepsAssign placeable) assigns.now }
    ensures terms { OnOk result (terms.new ≡ terms.old ++ flat_map (assign_terms (rewriting_of placing.now)) assigns.now) }
    ensures made { IfOk result (λ made. made ≡ map (rewritten_assign (rewriting_of placing.now)) assigns.now) }
{
    let mut rewritten = Items::new(placing.alloc);
    for assign in assigns {
        rewritten.push(rewrite_assign(placing, assign, terms)?)?;
    }
    Ok(rewritten)
}

fn rewrite_guard(
    placing: &Placing,
    guard: &Guard,
    terms: &mut Items<Term>,
) -> Result<Guard, NoMemory>
    requires placing { CanPlace placing.now }
    requires placeable { KeepsGuard placeable guard.now }
    ensures terms { OnOk result (terms.new ≡ terms.old ++ guard_terms (rewriting_of placing.now) guard.now) }
    ensures made { IfOk result (λ made. made ≡ rewritten_guard (rewriting_of placing.now) guard.now) }
{
    let conds = rewrite_conds(placing, guard.conds.as_slice(), terms)?;
    let body = rewrite_assigns(placing, guard.body.as_slice(), terms)?;
    Ok(Guard { conds, body })
}

fn rewrite_part(placing: &Placing, part: &Part, terms: &mut Items<Term>) -> Result<Part, NoMemory>
    requires placing { CanPlace placing.now }
    requires placeable { KeepsPart placeable part.now }
    ensures terms { OnOk result (terms.new ≡ terms.old ++ part_terms (rewriting_of placing.now) part.now) }
    ensures made { IfOk result (λ made. made ≡ rewritten_part (rewriting_of placing.now) part.now) }
{
    match part {
        Part::Assign(assign) => Ok(Part::Assign(rewrite_assign(placing, assign, terms)?)),
        Part::Branch(guard) => Ok(Part::Branch(rewrite_guard(placing, guard, terms)?)),
    }
}

fn rewrite_parts(
    placing: &Placing,
    parts: &[Part],
    terms: &mut Items<Term>,
) -> Result<Items<Part>, NoMemory>
    requires placing { CanPlace placing.now }
    requires placeable { All (KeepsPart placeable) parts.now }
    ensures terms { OnOk result (terms.new ≡ terms.old ++ flat_map (part_terms (rewriting_of placing.now)) parts.now) }
    ensures made { IfOk result (λ made. made ≡ map (rewritten_part (rewriting_of placing.now)) parts.now) }
{
    let mut rewritten = Items::new(placing.alloc);
    for part in parts {
        rewritten.push(rewrite_part(placing, part, terms)?)?;
    }
    Ok(rewritten)
}

fn rewrite_item(placing: &Placing, item: &Item, terms: &mut Items<Term>) -> Result<Item, NoMemory>
    requires placing { CanPlace placing.now }
    requires placeable { KeepsItem (λ variables. placeable) item.now }
    ensures terms { OnOk result (terms.new ≡ terms.old ++ item_terms (rewriting_of placing.now) item.now) }
    ensures made { IfOk result (λ made. made ≡ rewritten_item (rewriting_of placing.now) item.now) }
{
    match item {
        Item::Assign(assign) => Ok(Item::Assign(rewrite_assign(placing, assign, terms)?)),
        Item::Branch(guard) => Ok(Item::Branch(rewrite_guard(placing, guard, terms)?)),
        Item::Inner {
            var,
            low,
            high,
            parts,
        } => {
            let var = Name::copy(placing.alloc, var.bytes())?;
            let low = rewrite_index(placing, low, terms)?;
            let high = rewrite_index(placing, high, terms)?;
            let parts = rewrite_parts(placing, parts.as_slice(), terms)?;
            Ok(Item::Inner {
                var,
                low,
                high,
                parts,
            })
        }
    }
}

/// The items in composed terms. It makes a composition for each place.
pub(crate) fn rewrite_items(
    placing: &Placing,
    items: &[Item],
    terms: &mut Items<Term>,
) -> Result<Items<Item>, NoMemory>
    requires placing { CanPlace placing.now }
    requires placeable { All (KeepsItem (λ variables. placeable)) items.now }
    ensures terms { OnOk result (terms.new ≡ terms.old ++ flat_map (item_terms (rewriting_of placing.now)) items.now) }
    ensures made { IfOk result (λ made. made ≡ map (rewritten_item (rewriting_of placing.now)) items.now) }
{
    let mut rewritten = Items::new(placing.alloc);
    for item in items {
        rewritten.push(rewrite_item(placing, item, terms)?)?;
    }
    Ok(rewritten)
}
