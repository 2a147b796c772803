//! What a pass knows, for the rule of the table.

use std::collections::LinkedList;

/// A pass that was joined to another one.
pub struct Joined<E> {
    pub number: u64,
    pub own: LinkedList<E>,
}

/// What a pass knows. No value of it is made.
pub struct View<K, E> {
    /// From 1 on, and 0 once the pass was joined to another one.
    pub number: u64,
    pub key: Option<K>,
    /// For how many passes the turn is made.
    pub passes: u64,
    /// The first pass counts here how many were made.
    pub made: u64,
    pub seen: LinkedList<E>,
    pub own: LinkedList<E>,
    pub tries: LinkedList<u64>,
    pub holds: bool,
    pub joined: LinkedList<Joined<E>>,
    /// What it, and the passes that were joined to it, had seen before they were joined.
    pub had_seen: LinkedList<LinkedList<E>>,
}
