//! What has happened.

ghost use Rattle.std.specs.Prelude.{◌≡◌, ◌≤◌, ◌<◌, ◌↔◌, ◌++◌, ◌∷◌, [], ℕ, IfOk, IsTrue, false, length};
ghost use Rattle.spf_touch.specs.Ordered.{is_in};
ghost use Rattle.spf_core.specs.History.{IsHistory, MayClaim, claimed_tiles, holds};
ghost use Rattle.spf_core.specs.Marked.{is_held};
ghost use Rattle.spf_core.specs.declared.event.Event.TheVariants.{Claim, Publish};

use crate::event::Event;
use crate::order::Order;
use spf_base::NoMemory;
use std::alloc::Global;
use std::marker::Model;

/// The events so far, with marks of the tiles and a seat for each worker.
#[derive(Drop)]
pub(crate) struct Past {
    order: Order,
    workers: u32,
    claimed: Vec<bool>,
    published: Vec<bool>,
    held: Vec<Option<u32>>,
    events: Vec<Event>,
}

impl Model for Past {
    ghost use Rattle.std.specs.Prelude.{vec_capacity};
    ghost use Rattle.spf_core.specs.Marked.{Chronicle, IsMarked};

    ghost Value = { Chronicle };

    ghost view = { λ past. record { order = past.order; workers = past.workers; events = past.events.items } };

    ghost invariant = { λ past. IsMarked (record { order = past.order; workers = past.workers; events = past.events.items })
        past.claimed.items past.published.items past.held.items (vec_capacity past.events) };
}

impl Past {
    /// No event, and room for all that may come.
    pub(crate) fn start(alloc: Global, order: &Order, workers: u32) -> Result<Past, NoMemory>
        requires { length order.now ≤ 1024 }
        ensures { IfOk result (λ past. past ≡ record { order = order.now; workers = workers; events = [] }) }
    {
        let tiles = order.count() as usize;
        Ok(Past {
            order: order.copy(alloc)?,
            workers,
            claimed: vec![in alloc; false; tiles]?,
            published: vec![in alloc; false; tiles]?,
            held: vec![in alloc; None; workers as usize]?,
            events: Vec::with_capacity(alloc, 2 * tiles)?,
        })
    }

    /// Whether the event may come next. Linear in the tiles before the claimed one.
    pub(crate) fn can(&self, event: &Event) -> bool
        ensures { IsTrue result ↔ IsHistory self.now.order self.now.workers (self.now.events ++ event.now ∷ []) }
    {
        match *event {
            Event::Claim { worker, tile } => self.may_claim(worker, tile),
            Event::Publish { worker, tile } => self.holds(worker, tile),
        }
    }

    fn may_claim(&self, worker: u32, tile: u32) -> bool
        ensures may { IsTrue result ↔ MayClaim self.now.order self.now.workers self.now.events worker tile }
        ensures history { IsHistory self.now.order self.now.workers self.now.events }
    {
        self.is_idle(worker)
            && self.is_free(tile)
            && self.order.ready(self.published.as_slice(), tile)
    }

    fn is_idle(&self, worker: u32) -> bool
        ensures { IsTrue result ↔ ((1 ≤ worker) × (worker ≤ self.now.workers) × ((t : ℕ) → holds self.now.events worker t ≡ false)) }
    {
        self.has_worker(worker) && self.tile_of(worker).is_none()
    }

    fn has_worker(&self, worker: u32) -> bool
        ensures worker { IsTrue result ↔ ((1 ≤ worker) × (worker ≤ self.now.workers)) }
        ensures history { IsHistory self.now.order self.now.workers self.now.events }
    {
        worker >= 1 && worker <= self.workers
    }

    /// The tile that the worker holds.
    fn tile_of(&self, worker: u32) -> Option<u32>
        ensures holds { (t : ℕ) → is_held result t ≡ holds self.now.events worker t }
        ensures history { IsHistory self.now.order self.now.workers self.now.events }
    {
        if !self.has_worker(worker) {
            return None;
        }
        self.held[worker as usize - 1]
    }

    fn is_free(&self, tile: u32) -> bool
        ensures { IsTrue result ↔ ((tile < length self.now.order) × (is_in (claimed_tiles self.now.events) tile ≡ false)) }
    {
        tile < self.order.count() && !self.claimed[tile as usize]
    }

    fn holds(&self, worker: u32, tile: u32) -> bool
        ensures holds { result ≡ holds self.now.events worker tile }
        ensures history { IsHistory self.now.order self.now.workers self.now.events }
    {
        match self.tile_of(worker) {
            Some(held) => tile == held,
            None => false,
        }
    }

    /// The worker claims the tile.
    pub(crate) fn claim(&mut self, worker: u32, tile: u32)
        requires { IsHistory self.old.order self.old.workers (self.old.events ++ Claim worker tile ∷ []) }
        ensures { self.new ≡ record self.old { events = self.old.events ++ Claim worker tile ∷ [] } }
    {
        self.claimed[tile as usize] = true;
        self.held[worker as usize - 1] = Some(tile);
        self.events.push_reserved(Event::Claim { worker, tile });
    }

    /// The worker publishes the tile.
    pub(crate) fn publish(&mut self, worker: u32, tile: u32)
        requires { IsHistory self.old.order self.old.workers (self.old.events ++ Publish worker tile ∷ []) }
        ensures { self.new ≡ record self.old { events = self.old.events ++ Publish worker tile ∷ [] } }
    {
        self.published[tile as usize] = true;
        self.held[worker as usize - 1] = None;
        self.events.push_reserved(Event::Publish { worker, tile });
    }
}
