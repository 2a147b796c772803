//! Tables of sets of tiles: a row has a bit for each of 1,024 tiles, in 16 words.

ghost use Rattle.std.specs.Prelude.{◌≡◌, ◌+◌, ◌*◌, ◌<◌, ◌≤◌, ◌↔◌, IsTrue, length};
ghost use Rattle.spf_tiles.specs.TileSets.{AreAdded, Has};

/// Words of a row.
pub(crate) const WORDS: usize = 16;

/// Whether the row has the tile.
pub(crate) fn contains(table: &[u64], row: u32, tile: u32) -> bool
    requires few { tile < 1024 }
    requires room { row * 16 + 16 ≤ length table.now }
    ensures { IsTrue result ↔ Has table.now tile row }
{
    (table[row as usize * WORDS + tile as usize / 64] >> (tile % 64)) & 1 == 1
}

/// Adds the tile to the row.
pub(crate) fn insert(table: &mut [u64], row: u32, tile: u32)
    requires few { tile < 1024 }
    requires room { row * 16 + 16 ≤ length table.old }
    ensures { AreAdded table.old table.new (λ c d. (d ≡ row) × (c ≡ tile)) }
{
    table[row as usize * WORDS + tile as usize / 64] |= 1u64 << (tile % 64);
}

/// Adds the tiles of a row of another table. It takes 16 steps.
pub(crate) fn unite(table: &mut [u64], row: u32, other: &[u64], source: u32)
    requires room { row * 16 + 16 ≤ length table.old }
    requires source { source * 16 + 16 ≤ length other.now }
    ensures { AreAdded table.old table.new (λ c d. (d ≡ row) × Has other.now c source) }
{
    for word in 0..WORDS {
        table[row as usize * WORDS + word] |= other[source as usize * WORDS + word];
    }
}
