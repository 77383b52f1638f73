// Why an execution stops.

/// Why an execution stops before its end.
#[derive(Clone, Copy, PartialEq, Eq, Debug)]
pub enum Fault {
    /// An array has no element at an index.
    Index,
    /// A variable or parameter cannot take a value.
    Range,
    /// A pointer leads to no cell of its type; NIL is such a one.
    Nil,
    /// DIV or MOD by 0.
    Zero,
    /// No arm of a CASE has its value.
    Case,
    /// No such choice: what the language leaves open was not told, or cannot be so.
    Choice,
}
