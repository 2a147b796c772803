//! Pieces of a loop's body, which are walked through one behind the other.

ghost use Rattle.std.specs.Prelude.{◌≡◌, ℕ, ℤ, ◌+◌, ◌<◌, ◌^◌, List, All, IfOk};
ghost use Rattle.std.specs.List.{sum_by};
ghost use Rattle.spf_term.specs.Environment.{Environment};
ghost use Rattle.spf_term.specs.Walk.{Walks};
ghost use Rattle.spf_store.specs.Event.{Event};
ghost use Rattle.spf_store.specs.Trace.{one_by_one};

use crate::visitor::Visitor;

/// A piece of a loop's body.
pub(crate) trait Piece {
    /// How many sites it has.
    ghost sites: { Self → ℕ };

    /// Its events, where it is evaluated with these variables and its first site has this number.
    ghost trace: { Environment → List ℤ → ℕ → Self → List Event };

    /// Its terms are small, where the variables have these values.
    ghost small: { Environment → List ℤ → Self → Type 0 };

    /// Takes the visitor through the piece. Gives the number of the site behind its last.
    fn walk<S, V: Visitor<S>>(
        &self,
        visitor: &V,
        state: &mut S,
        variables: &[i64],
        site: u32,
    ) -> Result<u32, V::Stop>
        requires small { small (V.env visitor.now) variables.now self.now }
        requires numbered { site + sites self.now < 2 ^ 32 }
        requires may { All (V.may visitor.now state.old) (trace (V.env visitor.now) variables.now site self.now) }
        ensures walks { Walks (V.accepts visitor.now) (V.refuses visitor.now) state.old (trace (V.env visitor.now) variables.now site self.now) result state.new }
        ensures next { IfOk result (λ next. next ≡ site + sites self.now) };
}

/// Takes the visitor through pieces, one behind the other. Gives the number of the site behind their last.
pub(crate) fn walk_all<P: Piece, S, V: Visitor<S>>(
    visitor: &V,
    state: &mut S,
    variables: &[i64],
    pieces: &[P],
    site: u32,
) -> Result<u32, V::Stop>
    requires small { All (P.small (V.env visitor.now) variables.now) pieces.now }
    requires numbered { site + sum_by P.sites pieces.now < 2 ^ 32 }
    requires may { All (V.may visitor.now state.old) (one_by_one P.sites (P.trace (V.env visitor.now) variables.now) site pieces.now) }
    ensures walks { Walks (V.accepts visitor.now) (V.refuses visitor.now) state.old (one_by_one P.sites (P.trace (V.env visitor.now) variables.now) site pieces.now) result state.new }
    ensures next { IfOk result (λ next. next ≡ site + sum_by P.sites pieces.now) }
{
    let mut next = site;
    for piece in pieces {
        next = piece.walk(visitor, state, variables, next)?;
    }
    Ok(next)
}
