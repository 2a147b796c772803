//! The state of a check: what it keeps of the notes so far.

ghost use Rattle.std.specs.Prelude.{◌≡◌, List, [], ◌∷◌, OnOk};
ghost use Rattle.spf_lex.specs.Tokens.{texts};
ghost use Rattle.spf_kernel.specs.declared.note.Note.{Note};
ghost use Rattle.spf_kernel.specs.Notes.{note};
ghost use Rattle.spf_kernel.specs.check.Checked.{Checked};
ghost use Rattle.spf_kernel.specs.check.State.{IsBehind, Takes};

use crate::check::before::Before;
use crate::check::names::Names;
use crate::check::rules::{Breach, with_note};
use crate::note::{Note, Says, Scope};
use spf_base::NoMemory;
use spf_lex::{Token, Tokens};
use std::alloc::Global;
use std::marker::Model;

/// A kernel has no more notes, so that each loop has fewer than 2^31 sites. No text of 64 MiB has so many, since a token
/// gives three at most.
const MOST_NOTES: usize = (1 << 30) - 1;

/// The state of a check behind some notes: what the rules ask of their facts, and the first breach.
#[derive(Drop)]
pub(crate) struct Check<'a> {
    tokens: &'a Tokens<'a>,
    before: Before<'a>,
    best: Option<Breach>,
    /// How many notes it has taken.
    taken: usize,
}

impl<'a> Model for Check<'a> {
    ghost use Rattle.std.specs.Prelude.{List};
    ghost use Rattle.spf_lex.specs.Tokens.{texts};
    ghost use Rattle.spf_kernel.specs.declared.note.Note.{Note};
    ghost use Rattle.spf_kernel.specs.check.State.{State, IsBehind};

    ghost Value = { State };

    ghost view = { λ check. record { texts = texts check.tokens.now; before = check.before; best = check.best; taken = check.taken } };

    ghost invariant = { λ check. (notes : List Note) × IsBehind notes (record { texts = texts check.tokens.now; before = check.before; best = check.best; taken = check.taken }) };
}

impl<'a> Check<'a> {
    /// The check of no notes yet.
    pub(crate) fn new(alloc: Global, tokens: &'a Tokens<'a>) -> Check<'a>
        ensures behind { IsBehind [] result }
        ensures texts { result.texts ≡ texts tokens.now }
    {
        Check {
            tokens,
            before: Before::new(alloc),
            best: None,
            taken: 0,
        }
    }

    /// Checks one note more. Linear in its name on average. Where memory runs out, the check is as before.
    pub(crate) fn take(&mut self, token: Token, says: Says, scope: Scope) -> Result<(), NoMemory>
        ensures { OnOk result (Takes self.old (note token says scope ∷ []) self.new) }
    {
        let note = Note { token, says, scope };
        if self.taken >= MOST_NOTES {
            return Err(NoMemory);
        }
        let best = with_note(self.best, self.tokens, &self.before, &note);
        let counts = self.before.counts;
        match self.before.add(self.tokens, &note) {
            Ok(()) => {
                self.best = best;
                self.taken += 1;
                Ok(())
            }
            Err(error) => {
                self.before.counts = counts;
                Err(error)
            }
        }
    }

    /// What the notes so far come to: the declared names, or the first breach.
    pub(crate) fn finish(&self) -> Result<Names<'_>, Breach>
        ensures { (notes : List Note) → IsBehind notes self.now → Checked self.now.texts notes result }
    {
        let before = &self.before;
        match self.best {
            Some(breach) => Err(breach),
            None => Ok(Names {
                params: &before.params,
                tables: &before.tables,
                data_arrays: &before.data_arrays,
            }),
        }
    }
}
