//! Places in the order in which they are first met.

ghost use Rattle.std.specs.Prelude.{◌≡◌, ◌<◌, ℕ, [], All, IfOk, OnOk, length};
ghost use Rattle.spf_touch.specs.Listed.{all_listed, with_listed};
ghost use Rattle.spf_pack.specs.FirstTouch.{touched_places};
ghost use Rattle.spf_pack.specs.Listings.{IsListing};
ghost use Rattle.spf_pack.specs.Packs.{IsArrayOf, touched_by};
ghost use Rattle.spf_touch.specs.Repeated.{touches_at};

use crate::members::member_place;
use spf_base::NoMemory;
use spf_perm::Perm;
use spf_space::ArrayShape;
use spf_touch::{Touch, Touches};
use std::alloc::Global;

/// The places in order, and for each place whether it is listed.
#[derive(Drop)]
pub(crate) struct Listing {
    pub(crate) order: Vec<u32>,
    pub(crate) flags: Vec<bool>,
}

/// What the unit of this ordinal touches.
fn touches_of(touches: &Touches, unit: u32) -> &[Touch]
    requires { 0 < length touches.now }
    ensures { result.now ≡ touches_at touches.now unit }
{
    touches.of(unit % touches.locals())
}

impl Listing {
    /// Nothing is listed.
    pub(crate) fn new(alloc: Global, count: u32) -> Result<Listing, NoMemory>
        ensures none { IfOk result (λ listing. listing.order.items ≡ []) }
        ensures long { IfOk result (λ listing. length listing.flags.items ≡ count) }
        ensures kept { IfOk result IsListing }
    {
        Ok(Listing {
            order: Vec::with_capacity(alloc, count as usize)?,
            flags: vec![in alloc; false; count as usize]?,
        })
    }

    /// Lists a place, unless it is listed.
    fn put(&mut self, place: u32) -> Result<(), NoMemory>
        requires there { place < length self.old.flags.items }
        requires kept { IsListing self.old }
        ensures kept { OnOk result (IsListing self.new) }
        ensures still { OnOk result (length self.new.flags.items ≡ length self.old.flags.items) }
        ensures order { OnOk result (self.new.order.items ≡ with_listed self.old.order.items place) }
    {
        if !self.flags[place as usize] {
            self.flags[place as usize] = true;
            self.order.push(place)?;
        }
        Ok(())
    }

    /// Lists the places of the arrays that are touched.
    fn put_touches(
        &mut self,
        arrays: &[ArrayShape],
        members: &[u32],
        touches: &[Touch],
    ) -> Result<(), NoMemory>
        requires members { All (IsArrayOf arrays.now (length self.old.flags.items)) members.now }
        requires kept { IsListing self.old }
        ensures kept { OnOk result (IsListing self.new) }
        ensures still { OnOk result (length self.new.flags.items ≡ length self.old.flags.items) }
        ensures order { OnOk result (self.new.order.items ≡ all_listed self.old.order.items (touched_places arrays.now members.now touches.now)) }
    {
        for touch in touches {
            if let Some(place) = member_place(arrays, members, touch.element) {
                self.put(place)?;
            }
        }
        Ok(())
    }

    /// Lists the places of the arrays that these units touch. Linear in their touches.
    pub(crate) fn put_units(
        &mut self,
        arrays: &[ArrayShape],
        members: &[u32],
        touches: &Touches,
        units: &[u32],
    ) -> Result<(), NoMemory>
        requires members { All (IsArrayOf arrays.now (length self.old.flags.items)) members.now }
        requires touches { 0 < length units.now → 0 < length touches.now }
        requires kept { IsListing self.old }
        ensures kept { OnOk result (IsListing self.new) }
        ensures still { OnOk result (length self.new.flags.items ≡ length self.old.flags.items) }
        ensures order { OnOk result (self.new.order.items ≡ all_listed self.old.order.items (touched_by touches.now arrays.now members.now units.now)) }
    {
        for unit in units {
            self.put_touches(arrays, members, touches_of(touches, *unit))?;
        }
        Ok(())
    }

    /// Lists the places of a permutation in turn. Linear in them.
    pub(crate) fn put_all(&mut self, places: &Perm) -> Result<(), NoMemory>
        requires there { length places.now ≡ length self.old.flags.items }
        requires kept { IsListing self.old }
        ensures kept { OnOk result (IsListing self.new) }
        ensures still { OnOk result (length self.new.flags.items ≡ length self.old.flags.items) }
        ensures order { OnOk result (self.new.order.items ≡ all_listed self.old.order.items places.now) }
    {
        for position in 0..places.len() {
            self.put(places.at(position))?;
        }
        Ok(())
    }
}
