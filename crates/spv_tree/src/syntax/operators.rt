// The operators of formulas, by their levels.

/// What may stand before a constant or a sum.
#[derive(Clone, Copy, PartialEq, Eq, Debug)]
pub enum PlusOrMinus {
    /// `+`
    Plus,
    /// `-`
    Minus,
}

/// The operators of relations.
#[derive(Clone, Copy, PartialEq, Eq, Debug)]
pub enum Comparison {
    /// `=`
    Equal,
    /// `<>`
    NotEqual,
    /// `<`
    Less,
    /// `<=`
    AtMost,
    /// `>`
    Greater,
    /// `>=`
    AtLeast,
}

/// The operators between terms.
#[derive(Clone, Copy, PartialEq, Eq, Debug)]
pub enum Adding {
    /// `+`
    Plus,
    /// `-`
    Minus,
    /// OR
    Or,
}

/// The operators between factors.
#[derive(Clone, Copy, PartialEq, Eq, Debug)]
pub enum Multiplying {
    /// `*`
    Times,
    /// DIV
    Div,
    /// MOD
    Mod,
    /// AND
    And,
}

/// Which way the variable of a FOR goes.
#[derive(Clone, Copy, PartialEq, Eq, Debug)]
pub enum Direction {
    /// TO
    Up,
    /// DOWNTO
    Down,
}
