//! Sets and relations: integer points that meet constraints on terms, which may read index arrays.
//!
//! A set or relation is a list of conjunctions. Each one may have inner variables, for which some integers must be found,
//! and its constraints are terms that are 0 and terms of at least 0. Its meaning under an environment is a set of points
//! (`IsIn`) or of pairs of points (`Relates`). Upward the crate gives two contracts for each operation: the conjunctions
//! of its result, exactly, and what that result means under every environment: composition, inverse, image, union,
//! intersection or restriction.
//!
//! `simplify` and `simplify_set` make each conjunction simpler by the steps of `IsSimplification` (specs/Simplified.antt): terms
//! are made normal, inner variables are solved for, constant constraints and variables that don't occur go, and what is left
//! is put in order. They give exactly what the definition says, or the number that passes the number rule at its first test
//! that fails; a law says that simplified conjunctions have the same points. The composition of graphs, which are relations
//! whose outputs are terms of their inputs (`graph` in specs/Graph.antt), is simplified to the equality of its output with one
//! term, within the number rule, and laws say which term that is (src/graphs.rt).
//!
//! `as_function` gives the outputs of a relation as terms in its inputs (specs/Function.antt), and `contains` tells whether a
//! pair is in a relation without inner variables.
//!
//! It stands on the terms of spf_term. Each operation but simplification is linear in its result. Each call recurses as deep
//! as a term nests: the terms of a result nest no deeper than those that it is made of, but for what simplification puts in
//! place of variables, and a term of at most 16,384 monomials nests at most that deep.
#![tactic(auto)]

mod compaction;
mod definitions;
mod elimination;
mod evaluation;
mod functional;
mod functions;
mod graphs;
mod inputs;
mod inverses;
mod join;
mod membership;
mod normal_terms;
mod ordering;
mod outputs;
mod partly;
mod products;
mod relation;
mod renumber;
mod rule;
mod settling;
mod simplification;
mod simplifying_laws;
mod solving;
mod tidying;
mod unions;

pub use functional::{graph, reversed};
pub use functions::as_function;
pub use graphs::{
    compositions_have_one_function, compositions_of_graphs_are_graphs, compositions_stay_light,
    first_variables_are_replaced, graphs_are_formed, inverses_are_graphs,
};
pub use inverses::inverse;
pub use membership::contains;
pub use products::{apply, compose, intersect, intersect_sets, restrict_domain};
pub use relation::{Conj, Rel, Set};
pub use simplification::{simplify, simplify_set};
pub use simplifying_laws::{
    simplification_is_unique, simplification_keeps_the_meaning, simplified_terms_are_ready,
};
pub use unions::{union, union_sets};
