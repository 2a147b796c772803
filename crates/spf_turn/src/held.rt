//! What a try for the turn gives.

use crate::rule::TurnRule;
use std::marker::PhantomData;

/// The value of a turn, while a pass holds it.
pub struct Held<T, R: TurnRule<T>> {
    pub value: T,
    pub(crate) rule: PhantomData<R>,
}

/// The answer of a try that found another pass, by its number.
#[derive(Drop)]
pub struct Busy {
    pub holder: u32,
}
