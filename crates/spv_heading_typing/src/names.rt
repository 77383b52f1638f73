// Which names a routine may take.

use spv_declaration_typing::type_typing::Free;
use spv_environments::{Known, Own};
use spv_logic::names::Symbol;
use spv_program::ordered_map::Named;

/// What decides whether a routine may take a further name.
#[derive(Clone, Copy)]
pub struct RoutineNames<'k, 'l, 'p, 'o> {
    /// The program so far.
    pub known: &'k Known,
    /// The routine's own name.
    pub routine: Symbol,
    /// The variables of its GLOBAL list.
    pub listed: &'l Named<bool>,
    /// Names that it has.
    pub parameters: &'p Named<Own>,
    /// More names that it has.
    pub own: &'o Named<Own>,
}

impl<'k, 'l, 'p, 'o> Free for RoutineNames<'k, 'l, 'p, 'o> {
    ghost use Rattle.spv_heading_typing.specs.Names.{free_in};

    ghost free = { λ n x. free_in n x };

    fn is_free(&self, x: Symbol) -> bool {
        let known = self.known;
        if known.is_fixed(x) || self.routine.0 == x.0 {
            return false;
        }
        !(self.parameters.has(x) || self.own.has(x) || self.listed.has(x))
    }
}
