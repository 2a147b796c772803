//! Terms: whole numbers as sums of monomials over variables, parameters and applications of tables.
//!
//! An index expression of a kernel is a term, and so is each side of a constraint. A term leads back to itself where an
//! application has it as its argument; contracts see it as plain data, so that they can compare it with one that a
//! definition builds. Evaluation has one contract, that of `walk`: it finds the value of a term, and tells a `Reader` of
//! each entry of a table that it reads, in the order of evaluation (`Walks`). `value` is such a walk, which stops at the
//! first entry outside its table.
//!
//! The normal form of a term (`normal` in specs/Normal.antt) has its monomials in order, each atom once, no coefficient 0,
//! and normal arguments; laws say that it is normal and keeps the value. `normal` and `substitute` make it, and test the
//! number rule on the terms that they are given and on what they make of them (`IsTested`): `excess` tells where a term
//! passes it. While it is made, numbers have 128 bits (src/wide.rt), since those that pass 64 bits may cancel again. Crates
//! that test the rule on many terms together make wide normal forms and substitutions, and narrow them after their test.
//! `solve` finds a variable that a term can be solved for where the term is 0 (`Solves` in specs/Solution.antt). Laws say where
//! the equality of a variable and a term (`equation` in specs/Equation.antt) is solved, and what becomes of it when a term comes
//! in place of another variable; and how large normal forms and substitutions become, by measures of their coefficients and
//! constants (specs/Measure.antt).
//!
//! The crate stands on the arithmetic of spf_base and on the kit's lists. `copy`, `normal` and `substitute` take memory, the
//! other calls none and are linear in the term. Each call recurses as deep as the term nests: with 8 MB of stack a term that
//! nests 16,383 deep is made normal, and one that nests 8,000 deep is substituted in another.
#![tactic(auto)]

mod bounded;
mod collect;
mod copies;
mod counts;
mod env;
mod equations;
mod fault;
mod measures;
mod narrow;
mod normals;
mod number_rule;
mod occurrences;
mod opposites;
mod order;
mod solutions;
mod substitution;
mod term;
mod values;
mod walks;
mod wide;

pub use bounded::bounded_terms_are_small;
pub use counts::applications;
pub use env::{Env, number_at};
pub use equations::{equations_are_kept, equations_are_solved, substitution_keeps_the_normal_form};
pub use fault::TermFault;
pub use measures::{
    equations_are_bounded, normal_forms_are_no_larger, numbers_are_within_the_size,
    substitutions_are_bounded,
};
pub use narrow::{narrowed, wide_monomials};
pub use normals::{normal, normal_form_is_normal, normal_form_keeps_the_value, normal_wide};
pub use number_rule::{excess, first_outside, monomials};
pub use occurrences::mentions;
pub use opposites::oriented_wide;
pub use order::{compare, terms_are_ordered};
pub use solutions::{
    Solution, oriented_terms_are_alike, oriented_terms_are_normal, solutions_solve, solve,
};
pub use substitution::{substitute, substituted_wide, substitution_keeps_the_value};
pub use term::{Atom, Mono, Term};
pub use values::value;
pub use walks::{Reader, Walked, walk};
pub use wide::{WideAtom, WideMono, WideTerm};
