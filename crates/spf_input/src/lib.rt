//! The bundle: a kernel, a script and an input, read from one text.
//!
//! A bundle's grammar is one production (`bundle`), made of those of its parts: the kernel's, the script's and that of the
//! input part, whose names and values are left among the tokens (`RawEntry`). Behind the kernel rules come the eleven rules
//! of inputs, each of which is one definition over the declarations and the given numbers (`rules`), and is tested by one
//! function.
//!
//! Upward the crate gives one contract: `read_bundle` answers the bundle that a text is, with the numbers that it spells, or
//! the first fault: a place without a token, the first token that no bundle has there, the least place and the least rule
//! that the kernel breaks there, or the first rule that the input breaks, with its name and place (`IsBundleAnswer`).
//! `read_kernel` is the part of it that looks at no number (`IsAnswer`).
//!
//! The crate stands on spf_kernel and spf_script for two of the parts, on spf_store and spf_term for what the numbers make,
//! on spf_lex for tokens and productions, and on spf_base for places and running out of memory. Reading is linear in the
//! text; it takes about 24 bytes for each token and 8 for each number.
#![tactic(auto)]

mod bounds;
mod bundle;
mod cells;
mod entries;
mod fault;
mod given;
mod input;
mod laws;
mod lookup;
mod names;
mod params;
mod ranges;
mod reading;
mod sizes;

pub use bundle::RawBundle;
pub use entries::{RawEntry, RawInput};
pub use fault::InputFault;
pub use laws::kept_input_is_accepted;
pub use reading::{Bundle, one_bundle_answer, read_bundle, read_kernel};
