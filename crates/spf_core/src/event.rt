//! What happens to a tile.

/// A worker, counted from 1, takes a tile, counted from 0, or gives its work back.
#[derive(Clone, Copy)]
pub enum Event {
    Claim { worker: u32, tile: u32 },
    Publish { worker: u32, tile: u32 },
}
