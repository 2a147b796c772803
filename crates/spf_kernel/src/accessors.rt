//! The names that a kernel gives to its loops and its data arrays, and how many data sites it has.

ghost use Rattle.std.specs.Prelude.{◌≡◌, ◌<◌, ◌≤◌, Some, length, map, flat_map, option_copied, slice_get};
ghost use Rattle.spf_kernel.specs.Sites.{data_sites};
ghost use Rattle.spf_kernel.specs.TreeNames.{arrays_of};

use crate::kernel::Kernel;
use crate::sites;
use crate::tree::{DataDecl, Decl};
use spf_base::Name;

/// The data arrays that the declaration names.
fn arrays_of(decl: &Decl) -> &[DataDecl]
    ensures { map (λ array. array.name) result.now ≡ arrays_of decl.now }
{
    match decl {
        Decl::Values { arrays } => arrays.as_slice(),
        Decl::Params { .. } | Decl::Index { .. } => &[],
    }
}

/// The name of the data array of this number, if there is one. Linear in the declarations.
fn data_name_at(decls: &[Decl], n: usize) -> Option<&Name>
    ensures { option_copied result ≡ slice_get (flat_map arrays_of decls.now) n }
{
    let mut left = n;
    for decl in decls {
        let arrays = arrays_of(decl);
        if left < arrays.len() {
            return Some(&arrays[left].name);
        }
        left -= arrays.len();
    }
    None
}

impl Kernel {
    /// The name of a loop. Constant time.
    pub fn loop_name(&self, n: u32) -> &Name
        requires { n < length self.now.loops }
        ensures { slice_get (map (λ each. each.name) self.now.loops) n ≡ Some result.now }
    {
        &self.tree().loops.as_slice()[n as usize].name
    }

    /// The name of a data array, which are numbered in the order of the declarations. Linear in the declarations.
    pub fn data_name(&self, n: u32) -> &Name
        requires { n < length (flat_map arrays_of self.now.decls) }
        ensures { slice_get (flat_map arrays_of self.now.decls) n ≡ Some result.now }
    {
        match data_name_at(self.tree().decls.as_slice(), n as usize) {
            Some(name) => name,
            None => unreachable!(),
        }
    }

    /// How many data sites the loops have: the targets of assignments, and the elements of data arrays that stand in values.
    /// Linear in the tree.
    pub fn data_sites(&self) -> u32
        ensures count { result ≡ data_sites self.now }
        ensures few { result ≤ 256 }
    {
        sites::data_sites(self.tree())
    }
}
