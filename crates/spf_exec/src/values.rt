//! Terms as values.

ghost use Rattle.std.specs.Prelude.{◌≡◌, ◌∷◌, [], IfOk};
ghost use Rattle.spf_exec.specs.Rewritten.{as_value, factor_of, is_negative, product_of};

use spf_base::NoMemory;
use spf_kernel::tree::{Factor, Prod, Value};
use spf_term::{Atom, Mono, Term};
use sqlite_items::Items;
use std::alloc::Global;

/// An atom as a factor. Linear in it.
fn factor_of(alloc: Global, atom: &Atom) -> Result<Factor, NoMemory>
    ensures { IfOk result (λ made. made ≡ factor_of atom.now) }
{
    match atom {
        Atom::Var(number) => Ok(Factor::Var(*number)),
        Atom::Param(number) => Ok(Factor::Param(*number)),
        Atom::App { fun, arg } => Ok(Factor::Index {
            array: *fun,
            sub: Term::copy(alloc, arg)?,
        }),
    }
}

fn is_negative(number: i64) -> bool
    ensures { result ≡ is_negative number }
{
    number < 0
}

/// A number as a product.
fn number_product(alloc: Global, number: i64) -> Result<Prod, NoMemory>
    ensures { IfOk result (λ made. made ≡ product_of number []) }
{
    let minus = is_negative(number);
    let mut facts = Items::new(alloc);
    facts.push(Factor::Number(number.unsigned_abs()))?;
    Ok(Prod { minus, facts })
}

/// A monomial as a product. Linear in it.
fn mono_product(alloc: Global, mono: &Mono) -> Result<Prod, NoMemory>
    ensures { IfOk result (λ made. made ≡ product_of mono.now.coef (factor_of mono.now.atom ∷ [])) }
{
    let minus = is_negative(mono.coef);
    let mut facts = Items::new(alloc);
    facts.push(Factor::Number(mono.coef.unsigned_abs()))?;
    facts.push(factor_of(alloc, &mono.atom)?)?;
    Ok(Prod { minus, facts })
}

/// The term as a sum of products, of which the last is its constant. Linear in the term.
pub(crate) fn as_value(alloc: Global, term: &Term) -> Result<Value, NoMemory>
    ensures { IfOk result (λ made. made ≡ as_value term.now) }
{
    let mut prods = Items::new(alloc);
    for mono in term.monos.as_slice() {
        prods.push(mono_product(alloc, mono)?)?;
    }
    prods.push(number_product(alloc, term.constant)?)?;
    Ok(Value { prods })
}
