//! What a seed may look at.

ghost use Rattle.std.specs.Prelude.{◌≡◌, ◌<◌};
ghost use Rattle.spf_seed.specs.View.{IsView, positions, touched};

use sqlite_items::Items;

/// The number of parts, and for each position the elements that are touched there: those from `starts[j]` up to but not
/// including `starts[j + 1]`, by element number in the order of the touch list. `starts` has one number more than there are
/// positions.
#[derive(Drop)]
pub struct SeedView {
    pub parts: u32,
    pub starts: Items<u32>,
    pub elements: Items<u32>,
}

impl SeedView {
    /// How many positions there are.
    pub fn positions(&self) -> u32
        requires { IsView self.now }
        ensures { result ≡ positions self.now }
    {
        (self.starts.len() - 1) as u32
    }

    /// The elements that are touched at a position, in the order of the touch list.
    pub fn touched(&self, position: u32) -> &[u32]
        requires view { IsView self.now }
        requires there { position < positions self.now }
        ensures { result.now ≡ touched self.now position }
    {
        let starts = self.starts.as_slice();
        let start = starts[position as usize] as usize;
        let end = starts[position as usize + 1] as usize;
        &self.elements.as_slice()[start..end]
    }
}
