//! The answer of a device that failed.

use thiserror::Error;

/// What a source or a sink answers where it failed. Its count of faults has then risen.
#[derive(Clone, Copy, Debug, PartialEq, Eq, Error)]
#[error("fault")]
pub struct Failed;
