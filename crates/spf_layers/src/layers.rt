//! The groups of all elements.

ghost use Rattle.std.specs.Prelude.{◌≡◌, ◌+◌, ◌<◌, ◌≤◌, ◌^◌, ℕ, List, ◌++◌, IfOk, OnOk, length, map, slice_index};
ghost use Rattle.std.specs.List.{range_with_len, slice_range};
ghost use Rattle.spf_space.specs.Layout.{cells_in, iterations};
ghost use Rattle.spf_space.specs.Units.{units_of};
ghost use Rattle.spf_touch.specs.Frame.{IsTouched};
ghost use Rattle.spf_touch.specs.Lists.{start_of};
ghost use Rattle.spf_touch.specs.Repeated.{touches_at};
ghost use Rattle.spf_layers.specs.Chains.{AreChained, AreChains, Entry, LeadBack, grouped_entries};
ghost use Rattle.spf_layers.specs.Fits.{Fits};
ghost use Rattle.spf_layers.specs.Flat.{AreEnds, AreLaid, AreRows, groups_in, parts};
ghost use Rattle.spf_layers.specs.Groups.{element_groups, group_at, groups_at};

use crate::chains::{Node, chained, groups_of};
use crate::rows::Rows;
use spf_base::NoMemory;
use spf_space::{ArrayShape, Shape};
use spf_touch::{Class, Touches};
use std::alloc::Global;
use std::marker::Model;

/// For each element its groups, seen as the list of these lists. They lie flat: 4 bytes for each unit that touches an
/// element, 5 for each group and 4 for each element.
#[derive(Drop)]
pub struct Layers {
    rows: Rows,
    ends: Vec<u32>,
}

impl Model for Layers {
    ghost use Rattle.std.specs.Prelude.{List};
    ghost use Rattle.spf_layers.specs.Groups.{Group};

    ghost Value = { List (List Group) };

    ghost use Rattle.spf_layers.specs.Flat.{AreLaid, groups_in, parts};

    ghost view = { λ layers. parts (groups_in layers.rows) 0 layers.ends.items };

    ghost invariant = { λ layers. AreLaid layers.rows layers.ends.items };
}

/// Where the part of this number begins.
fn begin(ends: &[u32], part: usize) -> usize
    requires { part ≤ length ends.now }
    ensures { result ≡ start_of 0 ends.now part }
{
    if part == 0 {
        0
    } else {
        ends[part - 1] as usize
    }
}

/// The units of the group of this number among all groups.
fn units_in<'a>(units: &'a [u32], ends: &[u32], group: usize) -> &'a [u32]
    requires ends { AreEnds (length units.now) 0 ends.now }
    requires there { group < length ends.now }
    ensures { result.now ≡ slice_range units.now (start_of 0 ends.now group) (slice_index ends.now group) }
{
    part(units, begin(ends, group), ends[group] as usize)
}

fn part(units: &[u32], start: usize, end: usize) -> &[u32]
    requires order { start ≤ end }
    requires inside { end ≤ length units.now }
    ensures { result.now ≡ slice_range units.now start end }
{
    &units[start..end]
}

fn cells_of(arrays: &[ArrayShape]) -> u32
    requires { cells_in arrays.now < 2 ^ 32 }
    ensures { result ≡ cells_in arrays.now }
{
    arrays.iter().map(|array| array.length).sum()
}

/// Lays the groups of a chain behind the others.
fn lay_chain(rows: &mut Rows, nodes: &[Node], head: u32) -> Result<(), NoMemory>
    requires flat { AreRows rows.old }
    requires back { LeadBack nodes.now }
    requires head { head ≤ length nodes.now }
    ensures flat { OnOk result (AreRows rows.new) }
    ensures grown { OnOk result (length rows.old.ends.items ≤ length rows.new.ends.items) }
    ensures laid { (whole : List Entry) → AreChained nodes.now head whole →
        OnOk result (groups_in rows.new ≡ groups_in rows.old ++ grouped_entries whole) }
{
    let start = rows.classes.len();
    let mut number = head;
    while number > 0 {
        let node = nodes[number as usize - 1];
        rows.place(start, node.unit, node.class)?;
        number = node.next;
    }
    Ok(())
}

/// Lays out the groups of all chains.
fn laid_out(alloc: Global, nodes: &[Node], heads: &[u32]) -> Result<Layers, NoMemory>
    requires few { length heads.now < 2 ^ 32 }
    requires back { LeadBack nodes.now }
    requires heads { (e : ℕ) → e < length heads.now → slice_index heads.now e ≤ length nodes.now }
    ensures { (of : ℕ → List Entry) → AreChains nodes.now heads.now of →
        IfOk result (λ layers. layers ≡ map (λ e. grouped_entries (of e)) (range_with_len 0 (length heads.now))) }
{
    let mut rows = Rows::new(alloc, nodes.len(), groups_of(nodes))?;
    let mut ends = Vec::with_capacity(alloc, heads.len())?;
    for head in heads {
        lay_chain(&mut rows, nodes, *head)?;
        ends.push(rows.ends.len() as u32)?;
    }
    Ok(Layers { rows, ends })
}

impl Layers {
    /// The layers of these touches. Linear in the touches of all steps and the cells. While it works it takes some 12 bytes
    /// for each touch and 4 for each cell besides the layers.
    pub fn build(alloc: Global, touches: &Touches, shape: &Shape) -> Result<Layers, NoMemory>
        requires lists { length touches.now ≡ iterations shape.now.loops }
        requires inside { (u e : ℕ) → IsTouched (touches_at touches.now u) e → e < cells_in shape.now.arrays }
        ensures groups { IfOk result (λ layers. layers
            ≡ map (groups_at (touches_at touches.now) (length (units_of shape.now.steps shape.now.loops))) (range_with_len 0 (cells_in shape.now.arrays))) }
        ensures fits { IfOk result (λ layers. Fits (touches_at touches.now) (length (units_of shape.now.steps shape.now.loops)) layers) }
    {
        let count = shape.units();
        let cells = cells_of(shape.arrays.as_slice());
        let chains = chained(alloc, touches, count, cells)?;
        laid_out(alloc, chains.nodes.as_slice(), chains.heads.as_slice())
    }

    /// How many elements have a list of groups.
    pub fn elements(&self) -> u32
        ensures { result ≡ length self.now }
    {
        self.ends.len() as u32
    }

    /// How many groups the element has.
    pub fn groups(&self, element: u32) -> u32
        requires { element < length self.now }
        ensures { result ≡ length (element_groups self.now element) }
    {
        let end = self.ends[element as usize];
        end - begin(self.ends.as_slice(), element as usize) as u32
    }

    /// The units of a group of the element, in textual order.
    pub fn group(&self, element: u32, n: u32) -> &[u32]
        requires element { element < length self.now }
        requires group { n < length (element_groups self.now element) }
        ensures { result.now ≡ (group_at (element_groups self.now element) n).units }
    {
        let number = begin(self.ends.as_slice(), element as usize) + n as usize;
        units_in(
            self.rows.units.as_slice(),
            self.rows.ends.as_slice(),
            number,
        )
    }

    /// How the units of a group touch the element.
    pub fn class(&self, element: u32, n: u32) -> Class
        requires element { element < length self.now }
        requires group { n < length (element_groups self.now element) }
        ensures { result ≡ (group_at (element_groups self.now element) n).class }
    {
        let number = begin(self.ends.as_slice(), element as usize) + n as usize;
        self.rows.classes[number]
    }
}
