//! The steps of a script, as its text says them.

use spf_base::Name;
use sqlite_items::Items;

/// A step: the names of loops and arrays are as they stand in the text, and so are the numbers.
#[derive(Drop)]
pub enum TextStep {
    Cpack {
        arrays: Items<Name>,
        by: Name,
    },
    LexGroup {
        of: Name,
        by: Name,
    },
    LexSort {
        of: Name,
        by: Name,
    },
    Bucket {
        of: Name,
        by: Name,
        size: u64,
    },
    Tile {
        of: Name,
        step: u64,
        seed: TextSeed,
        parts: u64,
    },
    TilePack {
        arrays: Items<Name>,
    },
}

/// How the seed of a tiling is dealt into parts.
#[derive(Clone, Copy)]
pub enum TextSeed {
    Block,
    Spread,
    /// By the partitioner of this number.
    Plug(u64),
}
