// What lists hold.

use std::alloc::Global;

/// Reads what lists hold, where so many nestings may still be opened.
#[derive(Drop)]
pub(crate) struct Elements {
    pub(crate) alloc: Global,
    pub(crate) depth: usize,
}
