//! Rules 1 to 4: which names may be declared, and which may stand where.
#![tactic(auto, using(crate::proofs::Declared::known_from))]

ghost use Rattle.std.specs.Prelude.{ℕ, ◌≡◌, true, false, List};
ghost use Rattle.std.specs.List.{list_any};
ghost use Rattle.std.specs.Char.{is_ascii_uppercase};
ghost use Rattle.spf_lex.specs.Tokens.{texts};
ghost use Rattle.spf_kernel.specs.declared.note.Spot.{Spot};
ghost use Rattle.spf_kernel.specs.Facts.{Fact, fact_of, variables_in};
ghost use Rattle.spf_kernel.specs.Rules.{name_rules, is_in_scope, is_known, fits};
ghost use Rattle.spf_kernel.specs.check.Before.{before_of};
ghost use Rattle.spf_kernel.specs.check.Checked.{first_broken};

use crate::check::before::Before;
use crate::check::names::text_of;
use crate::note::{Note, Says, Scope, Spot};
use spf_lex::Tokens;

/// Whether the name is that of a variable in scope. Linear in it.
fn is_in_scope(tokens: &Tokens, scope: Scope, name: &[u8]) -> bool
    ensures { result ≡ is_in_scope (variables_in (texts tokens.now) scope) name.now }
{
    match scope {
        Scope::Nothing => false,
        Scope::Within(outer) => name == text_of(tokens, outer),
        Scope::Inside(outer, inner) => {
            name == text_of(tokens, outer) || name == text_of(tokens, inner)
        }
    }
}

/// Whether the name was declared, or is that of a variable in scope. Linear in it on average.
fn is_known(tokens: &Tokens, before: &Before, scope: Scope, name: &[u8]) -> bool
    ensures { (facts : List Fact) → before.now ≡ before_of facts → result ≡ is_known facts (variables_in (texts tokens.now) scope) name.now }
{
    before.declares(name) || is_in_scope(tokens, scope, name)
}

/// Whether the name may stand there with brackets. Linear in it on average.
fn fits_with_brackets(before: &Before, name: &[u8], spot: Spot) -> bool
    ensures { (facts : List Fact) (variables : List (List ℕ)) → before.now ≡ before_of facts → result ≡ fits facts variables name.now true spot }
{
    match spot {
        Spot::Head | Spot::Bound => false,
        Spot::Body => before.tables.contains(name),
        Spot::Factor => before.tables.contains(name) || before.data_arrays.contains(name),
        Spot::Target => before.data_arrays.contains(name),
    }
}

/// Whether the name may stand there without brackets. Linear in it on average.
fn fits_bare(tokens: &Tokens, before: &Before, scope: Scope, name: &[u8]) -> bool
    ensures { (facts : List Fact) (spot : Spot) → before.now ≡ before_of facts → result ≡ fits facts (variables_in (texts tokens.now) scope) name.now false spot }
{
    is_in_scope(tokens, scope, name) || before.params.contains(name)
}

/// Whether the text has a letter from `A` to `Z`. Linear in it.
fn has_upper(text: &[u8]) -> bool
    ensures { result ≡ list_any is_ascii_uppercase text.now }
{
    text.iter().any(|byte| byte.is_ascii_uppercase())
}

/// Whether the name may stand there, with brackets or without. Linear in it on average.
fn fits(
    tokens: &Tokens,
    before: &Before,
    scope: Scope,
    name: &[u8],
    brackets: bool,
    spot: Spot,
) -> bool
    ensures { (facts : List Fact) → before.now ≡ before_of facts → result ≡ fits facts (variables_in (texts tokens.now) scope) name.now brackets spot }
{
    if brackets {
        fits_with_brackets(before, name, spot)
    } else {
        fits_bare(tokens, before, scope, name)
    }
}

/// The least of rules 1 to 4 that the note breaks. Linear in its name on average.
pub(crate) fn name_rule(tokens: &Tokens, before: &Before, note: &Note) -> Option<u32>
    ensures { (facts : List Fact) → before.now ≡ before_of facts → result ≡ first_broken 1 name_rules facts (fact_of (texts tokens.now) note.now) }
{
    let name = text_of(tokens, note.token);
    match note.says {
        Says::Declared(_) | Says::Variable => {
            if has_upper(name) {
                return Some(1);
            }
            is_known(tokens, before, note.scope, name).then_some(2)
        }
        Says::Used { brackets, spot } => {
            if !is_known(tokens, before, note.scope, name) {
                return Some(3);
            }
            (!fits(tokens, before, note.scope, name, brackets, spot)).then_some(4)
        }
        _ => None,
    }
}
