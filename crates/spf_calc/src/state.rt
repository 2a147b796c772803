//! What statements leave behind: names with their values, and the text that is shown.

use crate::value::{Binding, Value};
use spf_base::{Name, NoMemory};
use sqlite_items::Items;
use std::alloc::Global;
use std::marker::Model;

/// The values that were given names, which are well-formed, and the text of the results.
#[derive(Drop)]
pub struct State {
    bindings: Items<Binding>,
    text: Vec<u8>,
}

impl Model for State {
    ghost use Rattle.std.specs.Coded.{codes};
    ghost use Rattle.spf_term.specs.contracts.term.Term as term;
    ghost use Rattle.spf_calc.specs.Situation.{Situation};
    ghost use Rattle.spf_calc.specs.Values.{AreFormed};

    ghost Value = { Situation };

    ghost coded = { Prim.hlevel (codes, term.the_row.coded) };

    ghost view = { λ state. record { bindings = state.bindings; shown = state.text.items } };

    ghost invariant = { λ state. AreFormed state.bindings };
}

impl State {
    ghost use Rattle.std.specs.Prelude.{◌≡◌, IfOk};
    ghost use Rattle.spf_calc.specs.Situation.{start, with_line, with_name};
    ghost use Rattle.spf_calc.specs.Values.{AreFormed, IsFormedValue};

    pub(crate) fn new(alloc: Global) -> State
        ensures { result ≡ start }
    {
        State {
            bindings: Items::new(alloc),
            text: Vec::new(alloc),
        }
    }

    pub(crate) fn bindings(&self) -> &[Binding]
        ensures bindings { result.now ≡ self.now.bindings }
        ensures formed { AreFormed result.now }
    {
        self.bindings.as_slice()
    }

    /// Gives the name to the value.
    pub(crate) fn with_name(
        self,
        alloc: Global,
        name: &Name,
        value: Value,
    ) -> Result<State, NoMemory>
        requires { IsFormedValue value }
        ensures { IfOk result (λ state. state ≡ with_name self name.now value) }
    {
        let State { mut bindings, text } = self;
        let name = Name::copy(alloc, name.bytes())?;
        bindings.push(Binding { name, value })?;
        Ok(State { bindings, text })
    }

    /// Shows the text, and a line feed behind it.
    pub(crate) fn with_line(self, line: &[u8]) -> Result<State, NoMemory>
        ensures { IfOk result (λ state. state ≡ with_line self line.now) }
    {
        let State { bindings, mut text } = self;
        text.extend_from_slice(line)?;
        text.push(b'\n')?;
        Ok(State { bindings, text })
    }

    pub(crate) fn into_text(self) -> Vec<u8>
        ensures { result.items ≡ self.shown }
    {
        self.text
    }
}
