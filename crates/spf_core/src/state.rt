//! A job under way.

ghost use Rattle.std.specs.Prelude.{◌≡◌, ◌≤◌, ◌<◌, ◌↔◌, ◌++◌, ◌∷◌, [], ℕ, All, IfOk, IsTrue, None, is_some, length};
ghost use Rattle.spf_touch.specs.Frame.{after_units};
ghost use Rattle.spf_touch.specs.Ordered.{ascending};
ghost use Rattle.spf_core.specs.Copies.{HasRoom, value_in};
ghost use Rattle.spf_core.specs.History.{IsHistory, published_tiles};
ghost use Rattle.spf_core.specs.Replay.{merged, values_of, worked};
ghost use Rattle.spf_core.specs.Stand.{IsAfter, IsReplayed, widest_of};
ghost use Rattle.spf_core.specs.Tiling.{tile_class, units_of};
ghost use Rattle.spf_core.specs.declared.event.Event.TheVariants.{Claim, Publish};

use crate::copied::Copied;
use crate::event::Event;
use crate::job::Job;
use crate::past::Past;
use spf_base::NoMemory;
use spf_touch::Units;
use std::alloc::Global;
use std::marker::Model;

/// The events of a job so far, its cells, and the copies that its workers hold.
#[derive(Drop)]
pub struct State {
    past: Past,
    cells: Vec<i64>,
    copies: Vec<Copied>,
    widest: usize,
}

impl Model for State {
    ghost use Rattle.std.specs.Prelude.{◌≡◌, All, length};
    ghost use Rattle.spf_core.specs.Stand.{Stand};

    ghost Value = { Stand };

    ghost view = { λ state. record {
      order = state.past.order;
      workers = state.past.workers;
      events = state.past.events;
      cells = state.cells.items;
      copies = state.copies.items;
      widest = state.widest;
    } };

    ghost invariant = { λ state. (length state.copies.items ≡ state.past.workers)
        × All (λ copied. length copied ≡ length state.cells.items) state.copies.items };
}

impl State {
    /// The job before any event. Linear in the workers times the cells.
    pub fn start<U: Units>(alloc: Global, job: &Job<U>, workers: u32) -> Result<State, NoMemory>
        requires { 1 ≤ workers }
        ensures order { IfOk result (λ state. state.order ≡ job.now.tiling.order) }
        ensures workers { IfOk result (λ state. state.workers ≡ workers) }
        ensures events { IfOk result (λ state. state.events ≡ []) }
        ensures widest { IfOk result (λ state. state.widest ≡ widest_of job.now.tiling.feet) }
        ensures cells { IfOk result (λ state. state.cells ≡ job.now.tiling.cells) }
        ensures replayed { IfOk result (λ state. IsReplayed (U.behavior job.now.units) job.now.tiling state) }
    {
        job.sound();
        Ok(State {
            past: Past::start(alloc, job.order(), workers)?,
            cells: Vec::from_slice(alloc, job.cells())?,
            copies: rooms(alloc, job, workers)?,
            widest: job.widest(),
        })
    }

    /// Whether the event may come next. Linear in the tiles before the claimed one.
    pub fn can(&self, event: &Event) -> bool
        ensures { IsTrue result ↔ IsHistory self.now.order self.now.workers (self.now.events ++ event.now ∷ []) }
    {
        self.past.can(event)
    }

    /// Makes the event. A claim costs the tile's foot and the room of a copy, and a publication its units too. It takes no
    /// memory.
    pub fn step<U: Units>(&mut self, job: &Job<U>, event: &Event)
        requires can { IsHistory self.old.order self.old.workers (self.old.events ++ event.now ∷ []) }
        requires order { self.old.order ≡ job.now.tiling.order }
        requires feet { widest_of job.now.tiling.feet ≤ self.old.widest }
        requires replayed { IsReplayed (U.behavior job.now.units) job.now.tiling self.old }
        ensures after { IsAfter self.old event.now self.new }
        ensures replayed { IsReplayed (U.behavior job.now.units) job.now.tiling self.new }
        ensures published { (e : ℕ) → values_of self.new.cells e ≡ after_units (U.behavior job.now.units)
            (ascending (U.behavior job.now.units).count (units_of job.now.tiling (published_tiles self.new.events)))
            (values_of job.now.tiling.cells) e }
    {
        job.sound();
        match *event {
            Event::Claim { worker, tile } => self.claim(job, worker, tile),
            Event::Publish { worker, tile } => self.publish(job, worker, tile),
        }
    }

    fn claim<U: Units>(&mut self, job: &Job<U>, worker: u32, tile: u32)
        requires can { IsHistory self.old.order self.old.workers (self.old.events ++ Claim worker tile ∷ []) }
        requires order { self.old.order ≡ job.now.tiling.order }
        requires replayed { IsReplayed (U.behavior job.now.units) job.now.tiling self.old }
        ensures after { IsAfter self.old (Claim worker tile) self.new }
        ensures replayed { IsReplayed (U.behavior job.now.units) job.now.tiling self.new }
    {
        job.sound();
        let seat = worker as usize - 1;
        job.copy(tile, self.cells.as_slice(), &mut self.copies[seat]);
        self.past.claim(worker, tile);
    }

    fn publish<U: Units>(&mut self, job: &Job<U>, worker: u32, tile: u32)
        requires can { IsHistory self.old.order self.old.workers (self.old.events ++ Publish worker tile ∷ []) }
        requires order { self.old.order ≡ job.now.tiling.order }
        requires replayed { IsReplayed (U.behavior job.now.units) job.now.tiling self.old }
        ensures after { IsAfter self.old (Publish worker tile) self.new }
        ensures replayed { IsReplayed (U.behavior job.now.units) job.now.tiling self.new }
    {
        job.sound();
        let seat = worker as usize - 1;
        publish_copy(job, tile, &mut self.copies[seat], self.cells.as_mut_slice());
        self.past.publish(worker, tile);
    }

    pub fn cells(&self) -> &[i64]
        ensures { result.now ≡ self.now.cells }
    {
        self.cells.as_slice()
    }
}

/// An empty copy for each worker.
fn rooms<U: Units>(alloc: Global, job: &Job<U>, workers: u32) -> Result<Vec<Copied>, NoMemory>
    ensures workers { IfOk result (λ copies. length copies.items ≡ workers) }
    ensures room { IfOk result (λ copies. All (λ copied. HasRoom job.now.tiling copied) copies.items) }
    ensures empty { IfOk result (λ copies. All (λ copied. (e : ℕ) → value_in copied e ≡ None) copies.items) }
{
    let mut copies = Vec::new(alloc);
    for _worker in 0..workers {
        copies.push(job.room(alloc)?)?;
    }
    Ok(copies)
}

/// Works the tile on the copy, blends that into the cells, and forgets it.
fn publish_copy<U: Units>(job: &Job<U>, tile: u32, copied: &mut Copied, cells: &mut [i64])
    requires tile { tile < length job.now.tiling.lists }
    requires cells { length cells.old ≡ length job.now.tiling.cells }
    requires room { HasRoom job.now.tiling copied.old }
    requires keys { (e : ℕ) → is_some (value_in copied.old e) ≡ is_some (tile_class (U.behavior job.now.units) job.now.tiling tile e) }
    ensures room { HasRoom job.now.tiling copied.new }
    ensures nothing { (e : ℕ) → value_in copied.new e ≡ None }
    ensures cells { (e : ℕ) → values_of cells.new e ≡ merged (U.behavior job.now.units) job.now.tiling tile
        (worked (U.behavior job.now.units) job.now.tiling tile (value_in copied.old)) (values_of cells.old) e }
{
    job.work(tile, copied);
    job.merge(tile, copied, cells);
    copied.clear();
}
