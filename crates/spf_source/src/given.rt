//! What the loops of a kernel are run with.

use spf_term::Env;

/// The numbers that terms read, and the first element of each data array.
#[derive(Drop)]
pub(crate) struct Given<'a> {
    pub env: &'a Env,
    pub starts: &'a [u32],
}
