//! What each step on the table tells, and how passes are split and joined.

use crate::rule::TurnRule;
use crate::view::View;
use atomic_table::{Join, Play, Split};
use std::marker::PhantomData;

pub(crate) struct Try<R> {
    rule: PhantomData<R>,
}

impl<T, R: TurnRule<T>> Play<Option<T>, View<R::Key, R::Entry>> for Try<R> {
    ghost use Rattle.spf_turn.specs.Steps.{Tried};

    ghost then = { Tried R.key R.tale R.who };
}

pub(crate) struct Give;

impl<T, K, E> Play<Option<T>, View<K, E>> for Give {
    ghost use Rattle.spf_turn.specs.Steps.{Gave};

    ghost then = { Gave };
}

pub(crate) struct Add<R> {
    rule: PhantomData<R>,
}

impl<T, R: TurnRule<T>> Play<Option<T>, View<R::Key, R::Entry>> for Add<R> {
    ghost use Rattle.spf_turn.specs.Steps.{Added};

    ghost then = { Added R.tale };
}

pub(crate) struct Look<R> {
    rule: PhantomData<R>,
}

impl<T, R: TurnRule<T>> Play<Option<T>, View<R::Key, R::Entry>> for Look<R> {
    ghost use Rattle.spf_turn.specs.Steps.{Looked};

    ghost then = { Looked R.key R.tale R.who };
}

pub(crate) struct Next;

impl<K, E> Split<View<K, E>> for Next {
    ghost use Rattle.spf_turn.specs.Steps.{split_left, split_right};

    ghost left = { split_left };

    ghost right = { split_right };
}

pub(crate) struct Gather;

impl<K, E> Join<View<K, E>> for Gather {
    ghost use Rattle.spf_turn.specs.Steps.{join_both, spent};

    ghost both = { join_both };

    ghost spent = { spent };
}
