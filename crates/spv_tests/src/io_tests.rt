//! What no clause of `spv_io` says: an output that takes less than it is given, and a reader that breaks
//! in the middle.

#[cfg(test)]
mod tests;
