// Routines, as a list of where they begin and end.

use crate::syntax::declarations::{Const, NameOrClass, Vars};
use crate::syntax::formulas::Formula;
use crate::syntax::lists::Several;
use crate::syntax::names::Name;
use crate::syntax::statements::Block;
use spv_logic::list::List;

/// What a group of parameters is.
#[derive(Drop)]
pub enum GroupForm {
    /// `[VAR] names ":" name`: whether VAR is there, the names, and their type.
    Variables(bool, Several<Name>, Name),
    /// `PROCEDURE names`
    Procedures(Several<Name>),
    /// `FUNCTION names ":" name`
    Functions(Several<Name>, Name),
}

/// `[VAR] names ":" name | PROCEDURE names | FUNCTION names ":" name`
#[derive(Drop)]
pub struct Group {
    /// The line of its first token.
    pub line: u32,
    /// What it is.
    pub form: GroupForm,
}

/// `"(" group {";" group} ")"`
#[derive(Drop)]
pub struct Params {
    /// The line of its first token.
    pub line: u32,
    /// The groups.
    pub groups: Several<Group>,
}

/// What a heading is.
#[derive(Drop)]
pub enum HeadingForm {
    /// `PROCEDURE name [params]`
    Procedure(Name, Option<Params>),
    /// `FUNCTION name [params] [":" name]`
    Function(Name, Option<Params>, Option<Name>),
}

/// `PROCEDURE name [params] | FUNCTION name [params] [":" name]`
#[derive(Drop)]
pub struct Heading {
    /// The line of its first token.
    pub line: u32,
    /// What it is.
    pub form: HeadingForm,
}

/// `name | "#" name`
#[derive(Clone, Copy, PartialEq, Eq, Debug)]
pub struct Item {
    /// The line of its first token.
    pub line: u32,
    /// What is written.
    pub form: NameOrClass,
}

/// `[VAR] item {"," item}`
#[derive(Drop)]
pub struct GlobalGroup {
    /// The line of its first token.
    pub line: u32,
    /// Whether VAR is there.
    pub by_place: bool,
    /// The items.
    pub items: Several<Item>,
}

/// `item "=" name`
#[derive(Clone, Copy, PartialEq, Eq, Debug)]
pub struct Start {
    /// The line of its first token.
    pub line: u32,
    /// What has a value at entry.
    pub item: Item,
    /// The name of that value.
    pub name: Name,
}

/// `[GLOBAL "(" ggroup {";" ggroup} ")" ";"] [INITIAL start {"," start} ";"] [ENTRY formula ";"] [EXIT formula ";"]`
#[derive(Drop)]
pub struct Clauses {
    /// The line of its first token, or of the token that follows.
    pub line: u32,
    /// Behind GLOBAL.
    pub globals: Option<Several<GlobalGroup>>,
    /// Behind INITIAL.
    pub initial: Option<Several<Start>>,
    /// Behind ENTRY.
    pub entry: Option<Formula>,
    /// Behind EXIT.
    pub exit: Option<Formula>,
}

/// The beginning of a body, up to its routines: `[CONST const {const}] [VAR vars {vars}]`
#[derive(Drop)]
pub struct Locals {
    /// The line of the body's first token.
    pub line: u32,
    /// Behind CONST.
    pub constants: List<Const>,
    /// Behind VAR.
    pub variables: List<Vars>,
}

/// Where a routine begins or ends. The routines of a text are the list of these in the order of the text. A routine inside
/// another stands between the two, so that no list is inside another.
#[derive(Drop)]
pub enum RoutineMark {
    /// `heading ";" clauses FORWARD ";"`: a whole routine, which is announced.
    Announced(Heading, Clauses),
    /// `heading ";" clauses` and the body up to its routines.
    Begins(Heading, Clauses, Locals),
    /// `block ";"`: the end of the routine that began last and has not ended.
    Ends(Block),
}
