//! For each element a chain of its units.

ghost use Rattle.std.specs.Prelude.{◌≡◌, ◌+◌, ◌<◌, ◌≤◌, ◌^◌, ℕ, [], ◌∷◌, ◌++◌, List, IfOk, OnOk, length, set, slice_index, slice_index_or};
ghost use Rattle.std.specs.List.{range_with_len};
ghost use Rattle.spf_touch.specs.Frame.{IsOnce, IsTouched, class_at};
ghost use Rattle.spf_touch.specs.Repeated.{touches_at};
ghost use Rattle.spf_layers.specs.Chains.{AreChains, Entry, LeadBack, entries, entry_in_front};

use crate::rows::shared;
use spf_base::NoMemory;
use spf_touch::{Class, Touch, Touches};
use std::alloc::Global;

/// A unit that touches an element, how, and the number of the next one.
#[derive(Clone, Copy)]
pub(crate) struct Node {
    pub(crate) unit: u32,
    pub(crate) class: Class,
    pub(crate) next: u32,
}

/// Nodes, numbered from 1, and the number of each element's first one, or 0.
#[derive(Drop)]
pub(crate) struct Chains {
    pub(crate) nodes: Vec<Node>,
    pub(crate) heads: Vec<u32>,
}

/// How many touches these units have together, or the greatest number there is: room for their nodes.
fn nodes_of(touches: &Touches, count: u32) -> usize {
    if touches.locals() == 0 {
        return 0;
    }
    let mut nodes: usize = 0;
    for local in 0..touches.locals() {
        nodes = nodes.saturating_add(touches.of(local).len());
    }
    nodes.saturating_mul((count / touches.locals()) as usize)
}

/// How many groups the chains have: each node opens one, unless the node that it leads to may stand in its group.
pub(crate) fn groups_of(nodes: &[Node]) -> usize
    requires { LeadBack nodes.now }
    ensures { result ≤ length nodes.now }
{
    let mut groups = 0;
    for node in nodes {
        if node.next == 0 || !shared(nodes[node.next as usize - 1].class, node.class) {
            groups += 1;
        }
    }
    groups
}

/// Puts a node before an element's chain.
fn chain(
    nodes: &mut Vec<Node>,
    heads: &mut Vec<u32>,
    unit: u32,
    touch: &Touch,
) -> Result<(), NoMemory>
    requires { touch.now.element < length heads.old.items }
    ensures few { OnOk result (length nodes.new.items < 2 ^ 32) }
    ensures node { OnOk result (nodes.new.items
        ≡ nodes.old.items ++ record { unit = unit; class = touch.now.class; next = slice_index heads.old.items touch.now.element } ∷ []) }
    ensures head { OnOk result (heads.new.items ≡ set heads.old.items touch.now.element (length nodes.old.items + 1)) }
{
    let number = nodes.len() + 1;
    if number > u32::MAX as usize {
        return Err(NoMemory);
    }
    let next = heads[touch.element as usize];
    nodes.push(Node {
        unit,
        class: touch.class,
        next,
    })?;
    heads[touch.element as usize] = number as u32;
    Ok(())
}

/// Puts a unit before the chains of the elements that it touches.
fn chain_unit(
    nodes: &mut Vec<Node>,
    heads: &mut Vec<u32>,
    unit: u32,
    touches: &[Touch],
) -> Result<(), NoMemory>
    requires once { IsOnce touches.now }
    requires inside { (e : ℕ) → IsTouched touches.now e → e < length heads.old.items }
    ensures heads { OnOk result (length heads.new.items ≡ length heads.old.items) }
    ensures chained { (later : ℕ → List Entry) → AreChains nodes.old.items heads.old.items later →
        OnOk result (AreChains nodes.new.items heads.new.items (λ e. entry_in_front unit (class_at touches.now e) (later e))) }
{
    for touch in touches {
        chain(nodes, heads, unit, touch)?;
    }
    Ok(())
}

/// The chains of the units below count, from the first to the last.
pub(crate) fn chained(
    alloc: Global,
    touches: &Touches,
    count: u32,
    cells: u32,
) -> Result<Chains, NoMemory>
    requires inside { (u e : ℕ) → u < count → IsTouched (touches_at touches.now u) e → e < cells }
    requires some { 0 < count → 0 < length touches.now }
    ensures heads { IfOk result (λ chains. length chains.heads.items ≡ cells) }
    ensures chained { IfOk result (λ chains. AreChains chains.nodes.items chains.heads.items
        (λ e. entries (touches_at touches.now) e (range_with_len 0 count))) }
    ensures once { OnOk result ((u : ℕ) → u < count → IsOnce (touches_at touches.now u)) }
{
    let mut heads = vec![in alloc; 0; cells as usize]?;
    let mut nodes = Vec::with_capacity(alloc, nodes_of(touches, count))?;
    for done in 0..count {
        let unit = count - 1 - done;
        let touched = touches.of(unit % touches.locals());
        chain_unit(&mut nodes, &mut heads, unit, touched)?;
    }
    Ok(Chains { nodes, heads })
}
