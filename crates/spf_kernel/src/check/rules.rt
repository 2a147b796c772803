//! The check of a note by the eleven rules.

ghost use Rattle.std.specs.Prelude.{◌≡◌, ◌⊎◌, List, [], ◌∷◌, ◌++◌};
ghost use Rattle.spf_lex.specs.Tokens.{texts};
ghost use Rattle.spf_kernel.specs.declared.note.Note.{Note};
ghost use Rattle.spf_kernel.specs.Facts.{facts_of};
ghost use Rattle.spf_kernel.specs.check.Before.{before_of};
ghost use Rattle.spf_kernel.specs.check.Checked.{Leads, IsFirst};

use crate::check::before::Before;
use crate::check::limits::limit_rule;
use crate::check::name_rules::name_rule;
use crate::note::Note;
use spf_lex::Tokens;

/// Where a kernel breaks the rules first: at the token of this number, this rule.
#[derive(Clone, Copy)]
pub struct Breach {
    pub place: u32,
    pub rule: u32,
}

/// The one that comes first of the two.
fn lesser(a: Breach, b: Breach) -> Breach
    ensures either { (result ≡ a) ⊎ (result ≡ b) }
    ensures leads { Leads result a × Leads result b }
{
    if b.place < a.place || (b.place == a.place && b.rule < a.rule) {
        b
    } else {
        a
    }
}

/// The first breach, with one note more. Linear in its name on average.
pub(crate) fn with_note(
    best: Option<Breach>,
    tokens: &Tokens,
    before: &Before,
    note: &Note,
) -> Option<Breach>
    ensures { (notes : List Note) → before.now ≡ before_of (facts_of (texts tokens.now) notes) → IsFirst (texts tokens.now) notes best → IsFirst (texts tokens.now) (notes ++ note.now ∷ []) result }
{
    let rule = name_rule(tokens, before, note).or(limit_rule(&before.counts, note));
    let place = note.token.at;
    match (best, rule) {
        (_, None) => best,
        (None, Some(rule)) => Some(Breach { place, rule }),
        (Some(best), Some(rule)) => Some(lesser(best, Breach { place, rule })),
    }
}
