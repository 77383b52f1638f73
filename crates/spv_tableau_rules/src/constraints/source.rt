// Where a bound comes from.

/// Where a bound comes from.
#[derive(Clone, Copy, Debug, PartialEq, Eq)]
pub struct Source {
    /// The number of the fact: from 1, or 0 for what a step supposes.
    pub fact: u32,
    /// Whether the fact is an equality, which may be multiplied by any number.
    pub is_equal: bool,
}
