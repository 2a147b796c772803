//! What was moved, and the terms that a program has.

use spf_kernel::tree::Item;
use spf_perm::Perm;
use spf_term::Term;
use sqlite_items::Items;

/// What an inspector has moved.
#[derive(Drop)]
pub struct Moved {
    /// For each loop the new position of each source position, if the loop is moved.
    pub loops: Items<Option<Perm>>,
    /// For each data array the packed place of each place, if the array is packed.
    pub arrays: Items<Option<Perm>>,
}

/// The body of a loop in composed terms.
#[derive(Drop)]
pub struct Body {
    /// The terms, in the order of the first tokens of what they stand for.
    pub terms: Items<Term>,
    /// The items of the loop with these terms: what stood in a value as a loop variable or as an entry of an index array is its
    /// term in parentheses.
    pub items: Items<Item>,
}

/// The body of each loop.
#[derive(Drop)]
pub struct Program {
    pub loops: Items<Body>,
}
