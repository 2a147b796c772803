//! Declarations, and the names that they give.

ghost use Rattle.std.specs.Prelude.{◌≡◌, IfOk, map};
ghost use Rattle.spf_base.specs.Word.{IsName};
ghost use Rattle.spf_lex.specs.Tokens.{texts};
ghost use Rattle.spf_kernel.specs.Facts.{text_of};
ghost use Rattle.spf_kernel.specs.Notes.{param_note, cells_notes, decl_notes};
ghost use Rattle.spf_kernel.specs.Resolved.{AreNames, data_decl_of, table_decl_of, decl_of};

use crate::check::names::{Source, text_of};
use crate::note::Scope;
use crate::raw::{RawDecl, RawIx, RawSized};
use crate::resolve::terms::resolve_ix;
use crate::resolve::{Means, resolve_all};
use crate::tree::{DataDecl, Decl, Trend};
use spf_base::{Name, NoMemory};
use spf_lex::Token;
use sqlite_items::Items;

/// The name that this token is. Linear in it.
pub(super) fn resolve_name(source: &Source, token: Token) -> Result<Name, NoMemory>
    requires { IsName (text_of (texts source.now.tokens.now) token) }
    ensures { IfOk result (λ name. name ≡ text_of (texts source.now.tokens.now) token) }
{
    Name::copy(source.alloc, text_of(source.tokens, token))
}

#[tactic(auto, using(crate::proofs::Naming::param_at))]
fn resolve_params(source: &Source, params: &[Token]) -> Result<Items<Name>, NoMemory>
    requires { AreNames (texts source.now.tokens.now) (map param_note params.now) }
    ensures { IfOk result (λ all. all ≡ map (text_of (texts source.now.tokens.now)) params.now) }
{
    let mut all = Items::new(source.alloc);
    for token in params {
        all.push(resolve_name(source, *token)?)?;
    }
    Ok(all)
}

impl Means for RawSized {
    type Tree = DataDecl;

    ghost are_names = { λ texts scope array. AreNames texts (cells_notes array) };

    ghost meaning = { λ texts names scope. data_decl_of texts names };

    fn resolve(&self, source: &Source, _scope: Scope) -> Result<DataDecl, NoMemory> {
        Ok(DataDecl {
            name: resolve_name(source, self.name)?,
            size: resolve_ix(source, Scope::Nothing, &self.size)?,
        })
    }
}

fn resolve_table(
    source: &Source,
    array: &RawSized,
    low: &RawIx,
    high: &RawIx,
    trend: Trend,
) -> Result<Decl, NoMemory>
    requires { IsName (text_of (texts source.now.tokens.now) array.now.name) }
    ensures { IfOk result (λ found. found ≡ table_decl_of (texts source.now.tokens.now) source.now.names.now array.now low.now high.now trend) }
{
    let nothing = Scope::Nothing;
    Ok(Decl::Index {
        name: resolve_name(source, array.name)?,
        size: resolve_ix(source, nothing, &array.size)?,
        low: resolve_ix(source, nothing, low)?,
        high: resolve_ix(source, nothing, high)?,
        trend,
    })
}

impl Means for RawDecl {
    type Tree = Decl;

    ghost are_names = { λ texts scope decl. AreNames texts (decl_notes decl) };

    ghost meaning = { λ texts names scope. decl_of texts names };

    fn resolve(&self, source: &Source, scope: Scope) -> Result<Decl, NoMemory> {
        match self {
            RawDecl::Params(params) => {
                let names = resolve_params(source, params.as_slice())?;
                Ok(Decl::Params { names })
            }
            RawDecl::Index {
                array,
                low,
                high,
                trend,
            } => resolve_table(source, array, low, high, *trend),
            RawDecl::Values(arrays) => {
                let arrays = resolve_all(source, scope, arrays.as_slice())?;
                Ok(Decl::Values { arrays })
            }
        }
    }
}
