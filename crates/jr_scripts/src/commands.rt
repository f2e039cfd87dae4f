//! What the commands do that are more than one call, or none.

pub(crate) mod collections;
pub(crate) mod copies;
pub(crate) mod elements;
pub(crate) mod posting;
pub(crate) mod regions;
