// What a literal says of the two sides of its relation.

/// What a literal says of the two sides of its relation, which are whole numbers.
#[derive(Clone, Copy, Debug, PartialEq, Eq)]
pub enum RowConstraint {
    /// The left side equals the right one.
    Equal,
    /// The left side is below the right one.
    Below,
    /// The left side is at most the right one.
    AtMost,
    /// The left side is above the right one.
    Above,
    /// The left side is at least the right one.
    AtLeast,
    /// The sides differ.
    Differs,
}
