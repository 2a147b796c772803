//! How the variables, parameters and functions of sets and relations are written.

ghost use Rattle.std.specs.Prelude.{◌≡◌, ◌++◌, OnOk};
ghost use Rattle.spf_reltext.specs.Printed.{name_at, rel_naming};

use crate::name_set::NameSet;
use crate::names::RelNames;
use crate::print_parts::{push, push_numbered};
use crate::print_term::TermNames;
use spf_base::NoMemory;

/// What numbers in terms are printed by: how many variables are inputs and outputs, and the names.
#[derive(Drop)]
pub struct Layout<'a> {
    pub ins: u32,
    pub outs: u32,
    pub names: &'a RelNames,
}

/// The name of this number, or nothing where there is none.
fn push_name_at(text: &mut Vec<u8>, names: &NameSet, number: u32) -> Result<(), NoMemory>
    ensures { OnOk result (text.new.items ≡ text.old.items ++ name_at names.now number) }
{
    push(text, names.get(number).unwrap_or(b""))
}

impl<'a> TermNames for Layout<'a> {
    ghost naming = { λ layout. rel_naming layout.ins layout.outs layout.names.now };

    fn push_variable(&self, text: &mut Vec<u8>, number: u32) -> Result<(), NoMemory> {
        if number < self.ins {
            return push_numbered(text, b"X", number);
        }
        let behind = number - self.ins;
        if behind < self.outs {
            return push_numbered(text, b"Y", behind);
        }
        push_numbered(text, b"E", behind - self.outs)
    }

    fn push_param(&self, text: &mut Vec<u8>, number: u32) -> Result<(), NoMemory> {
        push_name_at(text, &self.names.params, number)
    }

    fn push_fun(&self, text: &mut Vec<u8>, number: u32) -> Result<(), NoMemory> {
        push_name_at(text, &self.names.funs, number)
    }
}
