// Joins, and what is kept for each number.

/// Why two numbers were joined.
#[derive(Clone, Copy, PartialEq, Eq, Debug)]
pub enum Cause {
    /// It was told, by the fact at this place.
    Told(usize),
    /// They stand for terms of one head whose arguments were joined before.
    Congruent,
}

/// One class was joined to another one, whose label both have from then on.
#[derive(Clone, Copy, Debug)]
pub struct Join {
    /// The label that is no label any more.
    pub lower: usize,
    /// The label that both have.
    pub upper: usize,
    /// A number of the one class.
    pub left: u32,
    /// A number of the other class, for which there is a cause.
    pub right: u32,
    /// Why `left` and `right` were joined.
    pub cause: Cause,
}

/// What is kept for a number.
#[derive(Clone, Copy, Debug)]
pub(crate) struct Point {
    // The label of its class.
    pub(crate) label: usize,
    // Where it is a label: how many members its class has.
    pub(crate) size: usize,
    // The next member of its class, round about.
    pub(crate) next: usize,
    // Where the join stands that took it away as a label.
    pub(crate) taken: Option<usize>,
}
