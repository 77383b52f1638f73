// Why a text is refused.

ghost use Rattle.std.specs.Prelude.{◌≡◌};
ghost use Rattle.spv_verify.specs.refused.Refusals as spec;

use spv_logic::list::List;
use thiserror::Error;

/// Why a text is refused. The number is the line, from 1; the bytes are what the refusal tells behind its line, with nothing in
/// front of them, and none where it tells no more than the line.
#[derive(Debug, Drop, Error)]
pub enum Refusal {
    /// A byte with which no token can begin, and which is in no comment.
    #[error("line {0}: no token begins with this byte")]
    Byte(u32, List<u8>),
    /// A comment without an end. The line is the one it begins on.
    #[error("line {0}: the comment is not closed")]
    Comment(u32, List<u8>),
    /// A numeral above 9223372036854775807.
    #[error("line {0}: the numeral is too large")]
    Numeral(u32, List<u8>),
    /// A text of more than 4194304 bytes, or a listing of more than 67108864. The line is 1.
    #[error("the text is too long")]
    Length(u32, List<u8>),
    /// Tokens that no program of the language has. The line is the one at which they go wrong: that of the token
    /// that fits no program so far, or where there is no such token that of the last one, or 1 without any token.
    #[error("line {0}: no program goes on so")]
    Syntax(u32, List<u8>),
    /// A text whose level exceeds 200. The line is that of the first token after which it does.
    #[error("line {0}: the text goes too deep")]
    Depth(u32, List<u8>),
    /// A word that is known and belongs to nothing that is accepted: the first such word, which is told.
    #[error("line {0}: this word belongs to nothing that is accepted")]
    Profile(u32, List<u8>),
    /// A name, or a field of a record, that is not declared where it stands. The name is told.
    #[error("line {0}: this name is not declared")]
    Undeclared(u32, List<u8>),
    /// A name, a field, an item or a label of CASE that stands a second time in its scope, or a name that is known from the start.
    /// The name or number is told.
    #[error("line {0}: this is declared twice")]
    Twice(u32, List<u8>),
    /// A construct that begins on this line breaks a rule of types.
    #[error("line {0}: this is of a wrong type")]
    Typing(u32, List<u8>),
    /// A wrong number of arguments or of indices.
    #[error("line {0}: these are too many or too few")]
    Count(u32, List<u8>),
    /// Two places that may be one at a call. The items or variables that they belong to are told.
    #[error("line {0}: two places of this call may be one")]
    Alias(u32, List<u8>),
    /// A routine inside a routine. Its name is told.
    #[error("line {0}: this routine stands inside another")]
    Nested(u32, List<u8>),
    /// A parameter that is a routine. Its name is told.
    #[error("line {0}: this parameter is a routine")]
    Parameter(u32, List<u8>),
    /// The body of a FOR changes the variable that counts. Its name is told.
    #[error("line {0}: this changes the variable that counts")]
    Control(u32, List<u8>),
    /// A variable or class of the program that is used otherwise than the GLOBAL list of the routine allows. It is told.
    #[error("line {0}: the GLOBAL list does not allow this")]
    Global(u32, List<u8>),
    /// A function that may change what is not its own: by a VAR parameter, or by a VAR group of its GLOBAL list. Its name is told.
    #[error("line {0}: this function changes what is not its own")]
    Function(u32, List<u8>),
    /// The conditions of the program, or their terms, are more than there may be. The line is 1, and the limit is told.
    #[error("the conditions are too many or too large")]
    Size(u32, List<u8>),
    /// A variable of a rule that is not in the trigger of the rule. The line is that where it first stands in the rule; its name is told.
    #[error("line {0}: this variable is not in the trigger of its rule")]
    Unbound(u32, List<u8>),
    /// Bytes that no listing has. The line is that where they differ from a listing, or another one of theirs.
    #[error("line {0}: no listing has these bytes")]
    Listing(u32, List<u8>),
}

impl Refusal {
    /// The line that is told, from 1.
    pub fn line(&self) -> u32
        ensures { result ≡ spec.line_of self.now }
    {
        match self {
            Refusal::Byte(line, _) => *line,
            Refusal::Comment(line, _) => *line,
            Refusal::Numeral(line, _) => *line,
            Refusal::Length(line, _) => *line,
            Refusal::Syntax(line, _) => *line,
            Refusal::Depth(line, _) => *line,
            Refusal::Profile(line, _) => *line,
            Refusal::Undeclared(line, _) => *line,
            Refusal::Twice(line, _) => *line,
            Refusal::Typing(line, _) => *line,
            Refusal::Count(line, _) => *line,
            Refusal::Alias(line, _) => *line,
            Refusal::Nested(line, _) => *line,
            Refusal::Parameter(line, _) => *line,
            Refusal::Control(line, _) => *line,
            Refusal::Global(line, _) => *line,
            Refusal::Function(line, _) => *line,
            Refusal::Size(line, _) => *line,
            Refusal::Unbound(line, _) => *line,
            Refusal::Listing(line, _) => *line,
        }
    }

    /// What is told behind the line; nothing where the line is all.
    pub fn detail(&self) -> &[u8]
        ensures { result.now ≡ spec.detail_of self.now }
    {
        match self {
            Refusal::Byte(_, detail) => detail.as_slice(),
            Refusal::Comment(_, detail) => detail.as_slice(),
            Refusal::Numeral(_, detail) => detail.as_slice(),
            Refusal::Length(_, detail) => detail.as_slice(),
            Refusal::Syntax(_, detail) => detail.as_slice(),
            Refusal::Depth(_, detail) => detail.as_slice(),
            Refusal::Profile(_, detail) => detail.as_slice(),
            Refusal::Undeclared(_, detail) => detail.as_slice(),
            Refusal::Twice(_, detail) => detail.as_slice(),
            Refusal::Typing(_, detail) => detail.as_slice(),
            Refusal::Count(_, detail) => detail.as_slice(),
            Refusal::Alias(_, detail) => detail.as_slice(),
            Refusal::Nested(_, detail) => detail.as_slice(),
            Refusal::Parameter(_, detail) => detail.as_slice(),
            Refusal::Control(_, detail) => detail.as_slice(),
            Refusal::Global(_, detail) => detail.as_slice(),
            Refusal::Function(_, detail) => detail.as_slice(),
            Refusal::Size(_, detail) => detail.as_slice(),
            Refusal::Unbound(_, detail) => detail.as_slice(),
            Refusal::Listing(_, detail) => detail.as_slice(),
        }
    }

    /// The number and the word of the refusal.
    pub fn reason(&self) -> &'static [u8]
        ensures { result.now ≡ spec.reason self.now }
    {
        match self {
            Refusal::Byte(_, _) => b"1 BYTE",
            Refusal::Comment(_, _) => b"2 COMMENT",
            Refusal::Numeral(_, _) => b"3 NUMERAL",
            Refusal::Length(_, _) => b"4 LENGTH",
            Refusal::Syntax(_, _) => b"5 SYNTAX",
            Refusal::Depth(_, _) => b"6 DEPTH",
            Refusal::Profile(_, _) => b"7 PROFILE",
            Refusal::Undeclared(_, _) => b"8 UNDECLARED",
            Refusal::Twice(_, _) => b"9 TWICE",
            Refusal::Typing(_, _) => b"10 TYPE",
            Refusal::Count(_, _) => b"11 COUNT",
            Refusal::Alias(_, _) => b"12 ALIAS",
            Refusal::Nested(_, _) => b"13 NESTED",
            Refusal::Parameter(_, _) => b"14 PARAMETER",
            Refusal::Control(_, _) => b"15 CONTROL",
            Refusal::Global(_, _) => b"16 GLOBAL",
            Refusal::Function(_, _) => b"17 FUNCTION",
            Refusal::Size(_, _) => b"19 SIZE",
            Refusal::Unbound(_, _) => b"20 UNBOUND",
            Refusal::Listing(_, _) => b"21 LISTING",
        }
    }
}
