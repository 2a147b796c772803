//! Touch lists, made by noting one access behind the other.

ghost use Rattle.std.specs.Prelude.{◌≡◌, ◌+◌, ◌-◌, ◌<◌, ◌≤◌, ◌^◌, [], ◌∷◌, ◌++◌, ◌↔◌, IfOk, IsTrue, OnErr, OnOk, drop, length, take, vec_items};
ghost use Rattle.std.specs.List.{sum_by};
ghost use Rattle.spf_touch.specs.Frame.{IsOnce};
ghost use Rattle.spf_touch.specs.Lists.{AreMarked, StandsAt};
ghost use Rattle.spf_touch.specs.Noted.{noted};

use crate::class::Class;
use crate::conflicts::join;
use crate::touch::Touch;
use crate::touches::{Touches, start_of};
use spf_base::NoMemory;
use std::alloc::Global;
use std::marker::Model;

/// Touch lists in the making: those that are finished, and the one at work. A marker for each cell says where its element
/// was last noted, so that noting takes constant time. It takes 4 bytes for each cell, and what the touches take.
#[derive(Drop)]
pub struct TouchLists {
    touches: Vec<Touch>,
    ends: Vec<u32>,
    markers: Vec<u32>,
}

impl Model for TouchLists {
    ghost use Rattle.std.specs.Prelude.{length};
    ghost use Rattle.spf_touch.specs.Lists.{AreNoted, Listed, cut, open_list};

    ghost Value = { Listed };

    ghost view = { λ lists. record {
      closed = cut lists.touches.items 0 lists.ends.items;
      current = open_list lists.touches.items lists.ends.items;
      cells = length lists.markers.items;
    } };

    ghost invariant = { λ lists. AreNoted lists.touches.items lists.ends.items lists.markers.items };
}

/// Whether a touch of the element stands at this place, and not in front of `start`.
fn stands_at(touches: &[Touch], start: usize, place: usize, element: u32) -> bool
    ensures { IsTrue result ↔ StandsAt touches.now start place element }
{
    start <= place && place < touches.len() && touches[place].element == element
}

/// Notes an access in the list that begins at `start`.
fn note_from(
    touches: &mut Vec<Touch>,
    markers: &mut Vec<u32>,
    start: usize,
    element: u32,
    class: Class,
) -> Result<(), NoMemory>
    requires start { start ≤ length touches.old.items }
    requires room { length touches.old.items < 2 ^ 32 - 1 }
    requires inside { element < length markers.old.items }
    requires once { IsOnce (drop start touches.old.items) }
    requires marked { AreMarked start (drop start touches.old.items) markers.old.items }
    ensures before { take start touches.new.items ≡ take start touches.old.items }
    ensures noted { OnOk result (drop start touches.new.items ≡ noted (drop start touches.old.items) element class) }
    ensures once { IsOnce (drop start touches.new.items) }
    ensures marked { AreMarked start (drop start touches.new.items) markers.new.items }
    ensures cells { length markers.new.items ≡ length markers.old.items }
    ensures unchanged { OnErr result (touches.new.items ≡ touches.old.items) }
    ensures few { (start ≤ length touches.new.items) × (length touches.new.items < 2 ^ 32) }
{
    let place = markers[element as usize] as usize;
    if stands_at(touches.as_slice(), start, place, element) {
        let joined = join(touches[place].class, class);
        touches[place] = Touch {
            element,
            class: joined,
        };
        return Ok(());
    }
    let end = touches.len() as u32;
    touches.push(Touch { element, class })?;
    markers[element as usize] = end;
    Ok(())
}

impl TouchLists {
    /// No list yet, and an empty one at work. Linear in the cells.
    pub fn new(alloc: Global, cells: u32) -> Result<TouchLists, NoMemory>
        ensures { IfOk result (λ lists. lists ≡ record { closed = []; current = []; cells = cells }) }
    {
        Ok(TouchLists {
            touches: Vec::new(alloc),
            ends: Vec::new(alloc),
            markers: vec![in alloc; 0; cells as usize]?,
        })
    }

    /// Notes an access in the list at work. Constant time.
    pub fn note(&mut self, element: u32, class: Class) -> Result<(), NoMemory>
        requires inside { element < self.old.cells }
        requires room { sum_by length self.old.closed + length self.old.current < 2 ^ 32 - 1 }
        ensures noted { OnOk result (self.new ≡ record self.old { current = noted self.old.current element class }) }
        ensures unchanged { OnErr result (self.new ≡ self.old) }
    {
        let start = start_of(self.ends.as_slice(), self.ends.len());
        note_from(&mut self.touches, &mut self.markers, start, element, class)
    }

    /// Finishes the list at work, and begins an empty one. Constant time.
    pub fn close(&mut self) -> Result<(), NoMemory>
        requires { length self.old.closed < 2 ^ 32 - 1 }
        ensures closed { OnOk result (self.new ≡ record self.old { closed = self.old.closed ++ self.old.current ∷ []; current = [] }) }
        ensures unchanged { OnErr result (self.new ≡ self.old) }
    {
        let end = self.touches.len() as u32;
        self.ends.push(end)?;
        Ok(())
    }

    /// The finished lists; the one at work is dropped. It takes no memory.
    pub fn finish(self) -> Touches
        ensures { result ≡ self.closed }
    {
        Touches::of_parts(self.touches, self.ends)
    }
}
