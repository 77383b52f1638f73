// What a check answers.

/// What a check of the bounds came to.
#[derive(Clone, Copy, Debug, PartialEq, Eq)]
pub enum Checked {
    /// The kept point meets all bounds.
    Feasible,
    /// The kept combination of bounds is a contradiction.
    Infeasible,
    /// A number was too wide.
    Wide,
    /// There were as many steps as are allowed, and one more would follow.
    Pivots,
}
