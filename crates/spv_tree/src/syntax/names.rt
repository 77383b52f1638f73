// Names and constants as they stand in a text.

use crate::syntax::operators::PlusOrMinus;
use crate::tokens::Numeral;
use spv_logic::names::Symbol;

/// A name, with the line on which it stands.
#[derive(Clone, Copy, PartialEq, Eq, Debug)]
pub struct Name {
    /// The line on which it stands.
    pub line: u32,
    /// The name itself.
    pub symbol: Symbol,
}

/// What a constant is, without its sign.
#[derive(Clone, Copy, PartialEq, Eq, Debug)]
pub enum Scalar {
    /// A number.
    Number(Numeral),
    /// The name of a constant.
    Name(Name),
}

/// `["+" | "-"] (number | name)`
#[derive(Clone, Copy, PartialEq, Eq, Debug)]
pub struct Constant {
    /// The line of its first token.
    pub line: u32,
    /// Its sign, where one is written.
    pub sign: Option<PlusOrMinus>,
    /// What stands behind the sign.
    pub value: Scalar,
}
