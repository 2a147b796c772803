//! The table under a turn.

use crate::rule::TurnRule;
use crate::view::View;
use atomic_table::{Seat, Shared, Table, TableRule};
use std::alloc::Global;
use std::marker::PhantomData;
use std::snapshot::Snapshot;

/// The word that has the number of the pass which holds the turn.
pub const TURN: usize = 0;

/// The word that counts the entries.
pub const COUNT: usize = 1;

/// The slot of the value.
pub const SLOT: usize = 0;

/// No pass holds the turn.
pub const FREE: u64 = 0;

/// What a turn is made of: its first value, and how many passes.
#[derive(Drop)]
pub struct About<T> {
    pub first: Snapshot<T>,
    pub passes: u32,
}

/// The rule of the table.
pub struct BoardRule<R> {
    rule: PhantomData<R>,
}

impl<T, R: TurnRule<T>> TableRule<Option<T>, View<R::Key, R::Entry>, About<T>> for BoardRule<R> {
    ghost use Rattle.spf_turn.specs.Rule.{IsKept};
    ghost use Rattle.spf_turn.specs.Steps.{first_view};

    ghost holds = { λ about. IsKept R.key R.tale R.who about };

    ghost first = { λ about. first_view (R.key about.first.value) about.passes };
}

pub type Board<T, R> = Table<
    Option<T>,
    View<<R as TurnRule<T>>::Key, <R as TurnRule<T>>::Entry>,
    About<T>,
    BoardRule<R>,
    Global,
>;

pub type Place<T, R> = Seat<Option<T>, View<<R as TurnRule<T>>::Key, <R as TurnRule<T>>::Entry>>;

/// The board as all passes share it.
pub type SharedBoard<T, R> = Shared<
    Option<T>,
    View<<R as TurnRule<T>>::Key, <R as TurnRule<T>>::Entry>,
    About<T>,
    BoardRule<R>,
>;
