// Declarations.

use crate::syntax::lists::Several;
use crate::syntax::names::{Constant, Name};
use crate::syntax::types::TypeDenoter;
use spv_logic::list::List;

/// `name "=" constant ";"`
#[derive(Drop)]
pub struct Const {
    /// The line of its first token.
    pub line: u32,
    /// The constant's name.
    pub name: Name,
    /// What it stands for.
    pub value: Constant,
}

/// `name "=" type ";"`
#[derive(Drop)]
pub struct Typedef {
    /// The line of its first token.
    pub line: u32,
    /// The type's name.
    pub name: Name,
    /// What it stands for.
    pub of: TypeDenoter,
}

/// `names ":" type ";"`
#[derive(Drop)]
pub struct Vars {
    /// The line of its first token.
    pub line: u32,
    /// The variables.
    pub names: Several<Name>,
    /// Their type.
    pub of: TypeDenoter,
}

/// `name` or `"#" name`: a type or a variable, or a class.
#[derive(Clone, Copy, PartialEq, Eq, Debug)]
pub enum NameOrClass {
    /// `name`
    Name(Name),
    /// `"#" name`
    Class(Name),
}

/// `name | "#" name`, the sort of a symbol or of an argument.
#[derive(Clone, Copy, PartialEq, Eq, Debug)]
pub struct SortName {
    /// The line of its first token.
    pub line: u32,
    /// What is written.
    pub form: NameOrClass,
}

/// `name ["(" sort {"," sort} ")"] ":" sort ";"`
#[derive(Drop)]
pub struct SymbolText {
    /// The line of its first token.
    pub line: u32,
    /// The symbol's name.
    pub name: Name,
    /// The sorts of its arguments, where there are brackets.
    pub arguments: Option<Several<SortName>>,
    /// The sort of its result.
    pub result: SortName,
}

/// `[CONST const {const}] [TYPE typedef {typedef}] [VAR vars {vars}] [DECLARE symbol {symbol}]`; no parts of one kind is that its
/// word is not there.
#[derive(Drop)]
pub struct Declarations {
    /// The line of its first token, or of the token that follows.
    pub line: u32,
    /// Behind CONST.
    pub constants: List<Const>,
    /// Behind TYPE.
    pub types: List<Typedef>,
    /// Behind VAR.
    pub variables: List<Vars>,
    /// Behind DECLARE.
    pub symbols: List<SymbolText>,
}
