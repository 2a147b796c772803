//! The turn, and its calls.

ghost use Rattle.std.specs.Prelude.{◌≡◌, ℕ, ◌≤◌, true, false, List, [], ◌∷◌, ◌++◌, length, vec_len, map, All, IfOk, IfErr, IsOk};
ghost use Rattle.std.specs.List.{range_with_len};
ghost use mathlib.Core.List.{IsPrefix};
ghost use Rattle.spf_turn.specs.Tale.{entries_of, IsMade};
ghost use Rattle.spf_turn.specs.Passes.{IsPassOf, IsOther, fresh_pass, after_take, after_misses, after_put, after_event, after_look};

use crate::board::{Board, COUNT, FREE, Place, SLOT, SharedBoard, TURN};
use crate::held::{Busy, Held};
use crate::making::{join_passes, open_board, split_passes};
use crate::pass::Pass;
use crate::plays::{Add, Give, Look, Try};
use crate::rule::TurnRule;
use spf_base::NoMemory;
use std::alloc::Global;
use std::marker::{Model, PhantomData};
use std::sync::Wait;
use std::thread;

/// A lock on a value whose key stays and whose tale only grows.
pub struct Turn<T, R: TurnRule<T>> {
    board: Board<T, R>,
}

impl<T, R: TurnRule<T>> Model for Turn<T, R> {
    ghost use Rattle.spf_turn.specs.Passes.{TurnState};
    ghost use Rattle.spf_turn.specs.Seats.{IsBoard, turn_state};

    ghost Value = { TurnState R.Key };

    ghost view = { λ turn. turn_state R.key turn.board.shared.table_id turn.board.shared.key };

    ghost invariant = { λ turn. IsBoard turn.board.shared.table_id turn.board.shared.key };
}

impl<T, R: TurnRule<T>> Turn<T, R> {
    /// A turn with this value, and its passes, in the order of their numbers, which begin at 1. Linear in the passes.
    pub fn new(
        alloc: Global,
        value: T,
        passes: u32,
    ) -> Result<(Turn<T, R>, Vec<Pass<T, R>>), NoMemory>
    where
        T: Drop,
        requires passes { (1 ≤ passes) × (passes ≤ 64) }
        requires tale { R.tale value ≡ [] }
        ensures key { IfOk result (λ r. r.0.key ≡ R.key value) }
        ensures made { IfOk result (λ r. r.0.passes ≡ passes) }
        ensures passes { IfOk result (λ r. r.1.items ≡ map (fresh_pass r.0) (range_with_len 1 passes)) }
    {
        let mut all = Vec::with_capacity(alloc, passes as usize)?;
        let (board, seat) = open_board::<T, R>(alloc, value, passes)?;
        split_passes(&board.shared, seat, passes, &mut all);
        Ok((Turn { board }, all))
    }

    /// Takes the turn. It waits while another pass holds it, and tries again and again.
    pub fn take<W: Wait>(&self, rt: &W, pass: &mut Pass<T, R>) -> Held<T, R>
        requires turn { IsPassOf self.now pass.old }
        requires free { pass.old.holds ≡ false }
        ensures key { R.key result.value ≡ self.now.key }
        ensures seen { IsPrefix pass.old.seen (R.tale result.value) }
        ensures own { entries_of R.who pass.old.number (R.tale result.value) ≡ pass.old.own }
        ensures pass { (others : List ℕ) × All (IsOther pass.old) others × (pass.new ≡ after_take (after_misses pass.old others) (R.tale result.value)) }
    {
        for _ in rt.forever() {
            if let Ok(held) = self.try_take(pass) {
                return held;
            }
            thread::yield_now();
        }
        unreachable!()
    }

    /// Takes the turn, or answers which pass holds it.
    pub fn try_take(&self, pass: &mut Pass<T, R>) -> Result<Held<T, R>, Busy>
        requires turn { IsPassOf self.now pass.old }
        requires free { pass.old.holds ≡ false }
        ensures key { IfOk result (λ held. R.key held.value ≡ self.now.key) }
        ensures seen { IfOk result (λ held. IsPrefix pass.old.seen (R.tale held.value)) }
        ensures own { IfOk result (λ held. entries_of R.who pass.old.number (R.tale held.value) ≡ pass.old.own) }
        ensures got { IfOk result (λ held. pass.new ≡ after_take pass.old (R.tale held.value)) }
        ensures busy { IfErr result (λ busy. pass.new ≡ after_misses pass.old (busy.holder ∷ [])) }
        ensures other { IfErr result (λ busy. IsOther pass.old busy.holder) }
        ensures alone { self.now.passes ≡ 1 → IsOk result }
    {
        let table = &self.board.shared;
        let number = u64::from(pass.number);
        let found = table.compare_exchange::<Try<R>>(&mut pass.seat, TURN, FREE, number);
        if found != FREE {
            return Err(Busy {
                holder: found as u32,
            });
        }
        match table.exchange(&mut pass.seat, SLOT, None) {
            Some(value) => Ok(Held {
                value,
                rule: PhantomData,
            }),
            None => unreachable!(),
        }
    }

    /// Puts the turn back with the tale as it was.
    pub fn put(&self, pass: &mut Pass<T, R>, held: Held<T, R>)
        requires turn { IsPassOf self.now pass.old }
        requires holds { pass.old.holds ≡ true }
        requires key { R.key held.value ≡ self.now.key }
        requires tale { R.tale held.value ≡ pass.old.seen }
        ensures { pass.new ≡ after_put pass.old }
    {
        let Held { value, rule: _ } = held;
        let table = &self.board.shared;
        lay(table, &mut pass.seat, value);
        table.swap::<Give>(&mut pass.seat, TURN, FREE);
    }

    /// Puts the turn back with one more entry in the tale, of this pass.
    pub fn put_event(&self, pass: &mut Pass<T, R>, held: Held<T, R>)
        requires turn { IsPassOf self.now pass.old }
        requires holds { pass.old.holds ≡ true }
        requires key { R.key held.value ≡ self.now.key }
        requires entry { (entry : R.Entry) × (R.tale held.value ≡ pass.old.seen ++ entry ∷ []) × (R.who entry ≡ pass.old.number) }
        requires room { length (R.tale held.value) ≤ 4294967295 }
        ensures { (entry : R.Entry) → R.tale held.value ≡ pass.old.seen ++ entry ∷ [] → pass.new ≡ after_event pass.old (R.tale held.value) entry }
    {
        let Held { value, rule: _ } = held;
        let table = &self.board.shared;
        lay(table, &mut pass.seat, value);
        table.fetch_add::<Add<R>>(&mut pass.seat, COUNT, 1);
        table.swap::<Give>(&mut pass.seat, TURN, FREE);
    }

    /// How many entries the tale has. The pass has then seen them.
    pub fn look(&self, pass: &mut Pass<T, R>) -> u64
        requires { IsPassOf self.now pass.old }
        ensures count { result ≡ length pass.new.seen }
        ensures seen { IsPrefix pass.old.seen pass.new.seen }
        ensures own { entries_of R.who pass.new.number pass.new.seen ≡ pass.new.own }
        ensures pass { pass.new ≡ after_look pass.old pass.new.seen }
    {
        self.board.shared.load::<Look<R>>(&mut pass.seat, COUNT)
    }

    /// The value with the whole tale, once all passes are back. Linear in the passes.
    pub fn close(self, passes: Vec<Pass<T, R>>) -> T
        requires turn { All (λ pass. IsPassOf self pass) passes.items }
        requires free { All (λ pass. pass.holds ≡ false) passes.items }
        requires all { vec_len passes ≡ self.passes }
        ensures key { R.key result ≡ self.key }
        ensures seen { All (λ pass. IsPrefix pass.seen (R.tale result)) passes.items }
        ensures own { All (λ pass. entries_of R.who pass.number (R.tale result) ≡ pass.own) passes.items }
        ensures entries { All (λ entry. IsMade self.passes (R.who entry)) (R.tale result) }
    {
        let Turn { board } = self;
        let seat = join_passes(&board.shared, passes);
        let mut closed = board.close_with(seat);
        let Some(value) = closed.take(SLOT) else {
            unreachable!()
        };
        closed.free();
        value
    }
}

impl<T: Drop, R: TurnRule<T>> Drop for Turn<T, R> {
    fn drop(self) {
        let Self { board } = self;
        drop(board);
    }
}

// Lays the value into the empty slot that the seat has.
fn lay<T, R: TurnRule<T>>(table: &SharedBoard<T, R>, seat: &mut Place<T, R>, value: T)
    requires table { seat.old.table_id ≡ table.now.table_id }
    requires empty { seat.old.me.1 ≡ (0, None) ∷ [] }
    ensures table { (seat.new.table_id ≡ seat.old.table_id) × (seat.new.id ≡ seat.old.id) }
    ensures full { seat.new.me ≡ (seat.old.me.0, (0, Some value) ∷ []) }
{
    let empty = table.exchange(seat, SLOT, Some(value));
    let None = empty else { unreachable!() };
}
