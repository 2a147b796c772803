//! One touched element.

use crate::class::Class;

/// An element of the cells, counted from 0, and how a unit touches it.
#[derive(Clone, Copy)]
pub struct Touch {
    pub element: u32,
    pub class: Class,
}
