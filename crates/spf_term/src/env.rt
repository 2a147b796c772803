//! Where terms are evaluated.

ghost use Rattle.std.specs.Prelude.{◌≡◌, ◌≤◌, pos, length};
ghost use Rattle.spf_term.specs.Value.{number_at, table_at};

use std::marker::Model;

/// The values of the parameters and the entries of the index arrays, each by its number.
#[derive(Drop)]
pub struct Env {
    pub params: Vec<i64>,
    pub tables: Vec<Vec<i64>>,
}

impl Model for Env {
    ghost use Rattle.std.specs.Prelude.{map, vec_items};
    ghost use Rattle.spf_term.specs.Environment.{Environment};

    ghost Value = { Environment };

    ghost view = { λ env. record { params = env.params.items; tables = map vec_items env.tables.items } };
}

/// The number at a place, and 0 outside. Constant time.
pub fn number_at(numbers: &[i64], place: i64) -> i64
    ensures { result ≡ number_at numbers.now place }
{
    match usize::try_from(place) {
        Ok(place) if place < numbers.len() => numbers[place],
        _ => 0,
    }
}

impl Env {
    /// The table with this number, and an empty one where it isn't there. Constant time.
    pub fn table(&self, number: u32) -> &[i64]
        ensures { result.now ≡ table_at self.now number }
    {
        match self.tables.get(number as usize) {
            Some(table) => table.as_slice(),
            None => &[],
        }
    }
}
