// The two sides of a row.

/// Which side of a row a bound is on.
#[derive(Clone, Copy, Debug, PartialEq, Eq)]
pub enum Side {
    /// The row is at least the bound.
    Lower,
    /// The row is at most the bound.
    Upper,
}
