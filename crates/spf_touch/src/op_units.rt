//! Units that are lists of operations.

ghost use Rattle.std.specs.Prelude.{◌≡◌, ◌<◌, ◌^◌, ℕ, All, IfOk, OnOk, length, map, vec_items, vec_len, true};
ghost use Rattle.spf_touch.specs.Noted.{noted};
ghost use Rattle.spf_touch.specs.Ops.{op_touches, ops_of};

use crate::cells::Cells;
use crate::class::Class;
use crate::conflicts::join;
use crate::op::Op;
use crate::perform::perform_all;
use crate::touch::Touch;
use crate::units::Units;
use spf_base::NoMemory;
use std::alloc::Global;
use std::marker::Model;

/// Units of which each performs its operations in turn, seen as the list of these lists.
#[derive(Drop)]
pub struct OpUnits {
    units: Vec<Vec<Op>>,
    touches: Vec<Vec<Touch>>,
}

impl Model for OpUnits {
    ghost use Rattle.std.specs.Prelude.{◌≡◌, ◌<◌, ◌^◌, List, All, length, map, vec_items};
    ghost use Rattle.spf_touch.specs.declared.op.Op.{Op};
    ghost use Rattle.spf_touch.specs.Ops.{IsNoted};

    ghost Value = { List (List Op) };

    ghost view = { λ units. map vec_items units.units.items };

    ghost invariant = { λ units. IsNoted (map vec_items units.units.items) (map vec_items units.touches.items) };
}

impl OpUnits {
    /// The units with these operations. Each costs the square of its number of operations.
    pub fn of(alloc: Global, units: Vec<Vec<Op>>) -> Result<OpUnits, NoMemory>
        requires few { vec_len units < 2 ^ 32 }
        requires short { All (λ ops. length ops < 2 ^ 31) (map vec_items units.items) }
        ensures { IfOk result (λ made. made ≡ map vec_items units.items) }
    {
        let mut touches = Vec::new(alloc);
        for ops in &units {
            touches.push(touches_of_all(alloc, ops.as_slice())?)?;
        }
        Ok(OpUnits { units, touches })
    }

    fn ops_at(&self, unit: u32) -> &[Op]
        requires { unit < length self.now }
        ensures { result.now ≡ ops_of self.now unit }
    {
        self.units[unit as usize].as_slice()
    }

    fn touches_at(&self, unit: u32) -> &[Touch]
        requires { unit < length self.now }
        ensures touches { result.now ≡ op_touches (ops_of self.now unit) }
        ensures short { length result.now < 2 ^ 32 }
    {
        self.touches[unit as usize].as_slice()
    }
}

impl Units for OpUnits {
    ghost use Rattle.std.specs.Prelude.{length};
    ghost use Rattle.spf_touch.specs.Ops.{op_behavior};

    ghost behavior = { op_behavior };

    ghost use Rattle.spf_touch.specs.ActionLaw.{action_law};
    ghost use Rattle.spf_touch.specs.Ops.{actions_of, ops_of};

    ghost framed = { λ units. action_law (λ u. actions_of (ops_of units u)) (length units) };

    fn count(&self) -> u32 {
        self.units.len() as u32
    }

    fn touch_count(&self, unit: u32) -> u32 {
        self.touches_at(unit).len() as u32
    }

    fn touch(&self, unit: u32, nth: u32) -> Touch {
        self.touches_at(unit)[nth as usize]
    }

    fn run<C: Cells>(&self, unit: u32, cells: &mut C) {
        perform_all(self.ops_at(unit), cells);
    }
}

fn touches_of_all(alloc: Global, ops: &[Op]) -> Result<Vec<Touch>, NoMemory>
    ensures { IfOk result (λ touches. touches.items ≡ op_touches ops.now) }
{
    let mut touches = Vec::new(alloc);
    for op in ops {
        match *op {
            Op::Put { to, from, plus: _ } => {
                note(&mut touches, from, Class::Read)?;
                note(&mut touches, to, Class::Write)?;
            }
            Op::Gain { to, from } => {
                note(&mut touches, from, Class::Read)?;
                note(&mut touches, to, Class::Add)?;
            }
        }
    }
    Ok(touches)
}

fn note(touches: &mut Vec<Touch>, element: u32, class: Class) -> Result<(), NoMemory>
    ensures { OnOk result (touches.new.items ≡ noted touches.old.items element class) }
{
    for place in 0..touches.len() {
        if touches[place].element == element {
            let joined = join(touches[place].class, class);
            touches[place] = Touch {
                element,
                class: joined,
            };
            return Ok(());
        }
    }
    touches.push(Touch { element, class })?;
    Ok(())
}
