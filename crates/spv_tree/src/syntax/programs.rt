// Programs.

use crate::syntax::declarations::Declarations;
use crate::syntax::formulas::Formula;
use crate::syntax::lists::Several;
use crate::syntax::names::Name;
use crate::syntax::routines::RoutineMark;
use crate::syntax::statements::Block;
use spv_logic::list::List;

/// `PROGRAM name ["(" names ")"] ";" decls {routine} [ENTRY formula ";"] [EXIT formula ";"] block "."`
#[derive(Drop)]
pub struct Program {
    /// The line of its first token.
    pub line: u32,
    /// The program's name.
    pub name: Name,
    /// The names in brackets.
    pub files: Option<Several<Name>>,
    /// The declarations.
    pub declarations: Declarations,
    /// The routines.
    pub routines: List<RoutineMark>,
    /// Behind ENTRY.
    pub entry: Option<Formula>,
    /// Behind EXIT.
    pub exit: Option<Formula>,
    /// The main block.
    pub block: Block,
}
