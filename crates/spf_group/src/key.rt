//! What a key has of the places that an iteration touches.

/// The first place, all places, or the first place divided by the size of a bucket.
#[derive(Clone, Copy)]
pub(crate) enum Key {
    First,
    All,
    Bucket(u64),
}
