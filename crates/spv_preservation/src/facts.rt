//! Facts about the definitions that a doubter wants to see: division, fields, places.

pub mod laws;
