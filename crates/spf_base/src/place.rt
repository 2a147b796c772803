//! A place in a text.

/// Where a byte stands: its line and its column, each from 1, and columns in bytes.
#[derive(Clone, Copy, Debug, PartialEq, Eq)]
pub struct Place {
    pub line: u32,
    pub column: u32,
}
