//! How often in a row a source or a sink may have nothing to do.

/// So many answers `NotYet` in a row are a fault.
pub const LULLS: u32 = 1_000_000_000;
