//! Permutations.

ghost use Rattle.std.specs.Prelude.{◌≡◌, ◌<◌, ◌^◌, ℕ, IfOk, Ok, pos, length, map, slice_index_or};
ghost use Rattle.std.specs.List.{range_with_len};
ghost use Rattle.spf_perm.specs.Perm.{at, AreInverse, IsMade, IsPerm, IsPermOf};

use crate::entries::{
    entries_of, first_outside, first_repeat, move_cells, numbers_below, places_of,
};
use crate::perm_fault::PermFault;
use std::alloc::{AllocError, Global};
use std::marker::Model;

/// A bijection of 0 to one less than the length, seen as the list of where each element goes. 4 bytes for each element.
#[derive(Drop)]
pub struct Perm {
    list: Vec<u32>,
}

impl Model for Perm {
    ghost use Rattle.std.specs.Prelude.{ℕ, List};
    ghost use Rattle.spf_perm.specs.Perm.{IsPerm};

    ghost Value = { List ℕ };

    ghost view = { λ perm. perm.list.items };

    ghost invariant = { λ perm. IsPerm perm.list.items };
}

impl Perm {
    /// The permutation that has these entries, or the first fault of the list. Linear in the list.
    pub fn of_list(alloc: Global, list: Vec<u32>) -> Result<Perm, PermFault>
        requires { length list.items < 2 ^ 32 }
        ensures { IsPermOf list.items result }
    {
        if let Some(place) = first_outside(list.as_slice()) {
            return Err(PermFault::OutOfRange { place });
        }
        match first_repeat(alloc, list.as_slice())? {
            Some((first, second)) => Err(PermFault::NotPerm { first, second }),
            None => Ok(Perm { list }),
        }
    }

    /// The permutation that has these entries, which are one. It takes no memory.
    pub fn of_entries(list: Vec<u32>) -> Perm
        requires { IsPerm list.items }
        ensures { result ≡ list.items }
    {
        Perm { list }
    }

    /// The permutation that moves nothing. Linear in the length.
    pub fn identity(alloc: Global, len: u32) -> Result<Perm, PermFault>
        ensures { IsMade (λ perm. perm ≡ range_with_len 0 len) result }
    {
        Ok(Perm {
            list: numbers_below(alloc, len)?,
        })
    }

    /// How many elements there are.
    pub fn len(&self) -> u32
        ensures { result ≡ length self.now }
    {
        self.list.len() as u32
    }

    /// Where the element goes.
    pub fn at(&self, old: u32) -> u32
        requires { old < length self.now }
        ensures place { result ≡ at self.now old }
        ensures below { result < length self.now }
    {
        self.list[old as usize]
    }

    /// The permutation that leads back. Linear in the elements.
    pub fn inverse(&self, alloc: Global) -> Result<Perm, PermFault>
        ensures { IsMade (AreInverse self.now) result }
    {
        Ok(Perm {
            list: places_of(alloc, self.list.as_slice())?,
        })
    }

    /// This permutation and then the other one, which takes e to `after.at(self.at(e))`. Linear in the elements.
    pub fn then(&self, alloc: Global, after: &Perm) -> Result<Perm, PermFault>
        requires { length after.now ≡ length self.now }
        ensures { IsMade (λ perm. perm ≡ map (at after.now) self.now) result }
    {
        Ok(Perm {
            list: entries_of(alloc, self.list.as_slice(), after.list.as_slice())?,
        })
    }

    /// The same permutation again. Linear in the elements.
    pub fn copied(&self, alloc: Global) -> Result<Perm, AllocError>
        ensures { IfOk result (λ copy. copy ≡ self.now) }
    {
        Ok(Perm {
            list: self.list.clone()?,
        })
    }

    /// Moves each cell to the place where its element goes. Linear in the elements.
    pub fn apply_to(&self, from: &[i64], to: &mut [i64])
        requires from { length from.now ≡ length self.now }
        requires to { length to.old ≡ length self.now }
        ensures length { length to.new ≡ length self.now }
        ensures moved { (e : ℕ) → e < length self.now → slice_index_or to.new (at self.now e) (pos 0) ≡ slice_index_or from.now e (pos 0) }
    {
        move_cells(self.list.as_slice(), from, to);
    }
}

/// The permutation, or want of memory, which is the only fault that there is.
pub fn made(answer: Result<Perm, PermFault>) -> Result<Perm, AllocError>
    requires { IsMade IsPerm answer }
    ensures { IfOk result (λ perm. (answer ≡ Ok perm) × IsPerm perm) }
{
    match answer {
        Ok(perm) => Ok(perm),
        Err(_) => Err(AllocError),
    }
}
