//! The file of a zone.

/// Its number, which no file of a server has.
pub const ZONE_NUMBER: u32 = 1000;
