//! Tokens: a kind, and the line on which the token begins.
ghost use Rattle.std.specs.Prelude.{◌≡◌, pos, ◌≤ℤ◌};

use spv_logic::names::Symbol;
use std::marker::Model;

/// A word of the language. The last seven are known and belong to nothing that is accepted.
#[derive(Clone, Copy, PartialEq, Eq, Debug)]
pub enum Word {
    And,
    Array,
    Assert,
    Begin,
    By,
    Case,
    Const,
    Declare,
    Div,
    Do,
    Downto,
    Else,
    End,
    Entry,
    Exit,
    False,
    For,
    Forward,
    From,
    Function,
    Global,
    If,
    Infer,
    Initial,
    Invariant,
    Mod,
    New,
    Nil,
    Not,
    Of,
    Or,
    Procedure,
    Program,
    Record,
    Repeat,
    Replace,
    Then,
    To,
    True,
    Type,
    Until,
    Var,
    Where,
    While,
    Packed,
    Set,
    File,
    With,
    In,
    Goto,
    Label,
}

/// A sign of the language.
#[derive(Clone, Copy, PartialEq, Eq, Debug)]
pub enum Sign {
    /// `+`
    Plus,
    /// `-`
    Minus,
    /// `*`
    Star,
    /// `=`
    Equal,
    /// `<>`
    NotEqual,
    /// `<`
    Less,
    /// `<=`
    AtMost,
    /// `>`
    Greater,
    /// `>=`
    AtLeast,
    /// `(`
    OpenParenthesis,
    /// `)`
    CloseParenthesis,
    /// `[`
    OpenBracket,
    /// `]`
    CloseBracket,
    /// `,`
    Comma,
    /// `;`
    Semicolon,
    /// `:`
    Colon,
    /// `:=`
    Becomes,
    /// `.`
    Period,
    /// `..`
    Range,
    /// `^`
    Caret,
    /// `#`
    Hash,
    /// `->`
    Arrow,
}

/// A number as a text spells it: from 0 to 9223372036854775807. It has no sign; that is a token of its own. It stands in two
/// halves, so that a token takes 16 bytes.
#[derive(Clone, Copy, PartialEq, Eq, Debug)]
pub struct Numeral {
    high: u32,
    low: u32,
}

impl Model for Numeral {
    ghost use Rattle.std.specs.Prelude.{ℕ, ◌+◌, ◌*◌, ◌<◌, ◌/◌, ◌%◌};
    ghost use Rattle.spv_tree.specs.tokens.Numeral.{halves_back};

    ghost Value = { ℕ };

    ghost view = { λ n. n.high * 4294967296 + n.low };

    ghost invariant = { λ n. (n.high < 2147483648) × (n.low < 4294967296) };

    ghost inverse = { λ m. record { high = m / 4294967296; low = m % 4294967296 } };

    ghost inverse_ok = { λ n h. λ i. record { high = (halves_back n.high n.low h.1).0 i; low = (halves_back n.high n.low h.1).1 i } };
}

impl Numeral {
    /// The numeral of a value.
    pub fn new(value: i64) -> Numeral
        requires { pos 0 ≤ℤ value }
        ensures { pos result ≡ value }
    {
        let whole = value.unsigned_abs();
        Numeral {
            high: (whole / 4_294_967_296) as u32,
            low: (whole % 4_294_967_296) as u32,
        }
    }

    /// Its value.
    pub fn value(self) -> i64
        ensures { result ≡ pos self }
    {
        i64::from(self.high) * 4_294_967_296 + i64::from(self.low)
    }
}

/// What a token is.
#[derive(Clone, Copy, PartialEq, Eq, Debug)]
pub enum TokenKind {
    /// A word of the language.
    Word(Word),
    /// A name that is no word.
    Name(Symbol),
    /// A number.
    Number(Numeral),
    /// A sign.
    Sign(Sign),
}

/// A token of a text.
#[derive(Clone, Copy, PartialEq, Eq, Debug)]
pub struct Token {
    /// What it is.
    pub kind: TokenKind,
    /// The line of its first byte; the first line of a text is 1.
    pub line: u32,
}
