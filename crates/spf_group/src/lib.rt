//! Orders of a loop's positions by what its iterations touch of one array.
//!
//! Three orders have one form: each position has a key, a list of numbers that are compared from the front, a proper prefix
//! first; and the new order is the stable one by these keys on the current one (`IsOrderedBy`). The key of `lexgroup` is the
//! current packed place of the first touch, that of `lexsort` the places of all touches, that of `bucket` the first place
//! divided by the bucket's size. An iteration without a touch of the array has the empty key, and so comes first. Upward the
//! crate gives this contract, and the law that it leaves no choice (`one_order`).
//!
//! It stands on spf_touch for touch lists, on spf_space for shapes, and on spf_perm for orders and packings. A call sorts the
//! positions: n log n comparisons of keys, with 4 bytes for each place in a key and some 30 for each position.
#![tactic(auto)]

mod key;
mod keys;
mod laws;
mod orders;

pub use laws::one_order;
pub use orders::{bucket, lexgroup, lexsort};
