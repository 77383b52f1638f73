// Where a condition comes from.

/// A term of an arena: its place, from 0.
#[derive(Clone, Copy, Default, PartialEq, Eq, PartialOrd, Ord, Hash, Debug)]
pub struct TermId(pub u32);

/// A routine: its place, from 0, in the list of those with a body, as they come in the text.
#[derive(Clone, Copy, PartialEq, Eq, PartialOrd, Ord, Hash, Debug)]
pub struct RoutineId(pub u32);

/// Which annotation a condition is for.
#[derive(Clone, Copy, PartialEq, Eq, Debug)]
pub enum Kind {
    /// EXIT, where the body ends.
    Exit,
    /// ASSERT, where it is reached.
    Assert,
    /// INVARIANT, where the loop begins.
    Invariant,
    /// INVARIANT, after a turn of the loop.
    Preserved,
    /// ENTRY of a routine, where it is called.
    Entry,
}

/// Where a condition comes from: its routine (`None` is the main block), its kind, and a line, from
/// 1: the one where the annotation's formula begins, or for `Entry` where the called name stands.
#[derive(Clone, Copy, PartialEq, Eq, Debug)]
pub struct Origin {
    pub routine: Option<RoutineId>,
    pub kind: Kind,
    pub line: u32,
}
