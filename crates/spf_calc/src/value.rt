//! Values of expressions, and simplified ones.

ghost use Rattle.std.specs.Prelude.{◌≡◌, ◌≤◌, IfOk, IfSome, length};
ghost use Rattle.spf_calc.specs.Values.{Becomes, IsFormedValue, IsSimple, conjs_of, shape_of};

use spf_base::{Name, NoMemory};
use spf_rel::{Conj, Rel, Set, simplify, simplify_set};
use spf_reltext::Shape;
use spf_term::TermFault;
use std::alloc::Global;

/// How many conjunctions a result may have before it is simplified.
pub const MOST_CONJUNCTIONS: usize = 256;

#[derive(Drop)]
pub enum Value {
    Points(Set),
    Pairs(Rel),
}

/// A name that a value was given.
#[derive(Drop)]
pub struct Binding {
    pub name: Name,
    pub value: Value,
}

impl Value {
    pub(crate) fn shape(&self) -> Shape
        ensures { result ≡ shape_of self.now }
    {
        match self {
            Value::Points(set) => Shape::Points {
                arity: set.arity as usize,
            },
            Value::Pairs(rel) => Shape::Pairs {
                ins: rel.ins as usize,
                outs: rel.outs as usize,
            },
        }
    }

    pub(crate) fn conjs(&self) -> &[Conj]
        ensures { result.now ≡ conjs_of self.now }
    {
        match self {
            Value::Points(set) => set.conjs.as_slice(),
            Value::Pairs(rel) => rel.conjs.as_slice(),
        }
    }
}

fn simplified_set(alloc: Global, set: &Set) -> Result<Option<Value>, NoMemory>
    requires formed { IsFormedValue (Value.Points set.now) }
    requires few { length set.now.conjs ≤ MOST_CONJUNCTIONS }
    ensures becomes { IfOk result (λ outcome. Becomes (Value.Points set.now) outcome) }
    ensures shape { IfOk result (λ outcome. IfSome outcome (λ made. shape_of made ≡ shape_of (Value.Points set.now))) }
    ensures formed { IfOk result (λ outcome. IfSome outcome IsFormedValue) }
{
    match simplify_set(alloc, set) {
        Ok(made) => Ok(Some(Value::Points(made))),
        Err(TermFault::Wide { .. }) => Ok(None),
        Err(TermFault::Memory) => Err(NoMemory),
    }
}

fn simplified_rel(alloc: Global, rel: &Rel) -> Result<Option<Value>, NoMemory>
    requires formed { IsFormedValue (Value.Pairs rel.now) }
    requires few { length rel.now.conjs ≤ MOST_CONJUNCTIONS }
    ensures becomes { IfOk result (λ outcome. Becomes (Value.Pairs rel.now) outcome) }
    ensures shape { IfOk result (λ outcome. IfSome outcome (λ made. shape_of made ≡ shape_of (Value.Pairs rel.now))) }
    ensures formed { IfOk result (λ outcome. IfSome outcome IsFormedValue) }
{
    match simplify(alloc, rel) {
        Ok(made) => Ok(Some(Value::Pairs(made))),
        Err(TermFault::Wide { .. }) => Ok(None),
        Err(TermFault::Memory) => Err(NoMemory),
    }
}

/// The value simplified, or `None` where it is too wide for that.
pub(crate) fn simplified(alloc: Global, value: &Value) -> Result<Option<Value>, NoMemory>
    requires { IsFormedValue value.now }
    ensures becomes { IfOk result (λ outcome. Becomes value.now outcome) }
    ensures shape { IfOk result (λ outcome. IfSome outcome (λ made. shape_of made ≡ shape_of value.now)) }
    ensures formed { IfOk result (λ outcome. IfSome outcome IsFormedValue) }
{
    if value.conjs().len() > MOST_CONJUNCTIONS {
        return Ok(None);
    }
    match value {
        Value::Points(set) => simplified_set(alloc, set),
        Value::Pairs(rel) => simplified_rel(alloc, rel),
    }
}
