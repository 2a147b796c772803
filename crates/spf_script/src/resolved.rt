//! The steps of a script for a shape: loops and arrays by their numbers.

use sqlite_items::Items;

/// A step of a transformation: what it orders, packs or tiles, by the numbers of loops and arrays of a shape.
#[derive(Drop)]
pub enum Step {
    Cpack {
        arrays: Items<u32>,
        by: u32,
    },
    LexGroup {
        of: u32,
        by: u32,
    },
    LexSort {
        of: u32,
        by: u32,
    },
    Bucket {
        of: u32,
        by: u32,
        size: u64,
    },
    Tile {
        of: u32,
        step: u32,
        seed: Seed,
        parts: u32,
    },
    TilePack {
        arrays: Items<u32>,
    },
}

/// How the seed of a tiling is dealt into parts.
#[derive(Clone, Copy)]
pub enum Seed {
    Block,
    Spread,
    /// By the partitioner of this number.
    Plug(u32),
}
