//! Passes.

ghost use Rattle.std.specs.Prelude.{◌≡◌};
ghost use Rattle.spf_turn.specs.Seats.{IsSeated, pass_state};

use crate::board::Place;
use crate::rule::TurnRule;
use std::marker::Model;

/// A seat at a turn, with its number. What it has seen, its own entries and its tries exist in contracts alone
/// (`PassState`).
pub struct Pass<T, R: TurnRule<T>> {
    pub(crate) number: u32,
    pub(crate) seat: Place<T, R>,
}

impl<T, R: TurnRule<T>> Model for Pass<T, R> {
    ghost use Rattle.spf_turn.specs.Passes.{PassState};
    ghost use Rattle.spf_turn.specs.Seats.{IsSeated, pass_state};

    ghost Value = { PassState R.Key R.Entry };

    ghost view = { λ pass. pass_state pass.seat.table_id pass.seat.me.0 };

    ghost invariant = { λ pass. IsSeated pass.number pass.seat.me };
}

impl<T, R: TurnRule<T>> Pass<T, R> {
    pub fn number(&self) -> u32
        ensures { result ≡ self.now.number }
    {
        self.number
    }

    pub(crate) fn into_seat(self) -> Place<T, R>
        ensures state { self ≡ pass_state result.table_id result.me.0 }
        ensures seated { IsSeated self.number result.me }
    {
        let Self { number: _, seat } = self;
        seat
    }
}

impl<T, R: TurnRule<T>> Drop for Pass<T, R> {
    fn drop(self) {
        let Self { number: _, seat } = self;
        drop(seat);
    }
}
