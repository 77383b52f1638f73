// What is passed to a call, with the calls in it.

use crate::leaves::Called;
use spv_assign::structures::Target;
use spv_logic::TermId;
use spv_logic::list::List;

/// A place, and the calls in its selectors, in order.
#[derive(Drop)]
pub struct Placed {
    /// The place.
    pub target: Target,
    /// The calls.
    pub calls: List<Called>,
}

/// What stands for a parameter: a value, or a place.
#[derive(Drop)]
pub enum Argument {
    /// This value.
    Given(TermId),
    /// What stands at this place.
    AtPlace(Target),
}

/// The arguments of a call, in order, and the calls in them.
#[derive(Drop)]
pub struct Argued {
    /// The arguments.
    pub arguments: List<Argument>,
    /// The calls.
    pub calls: List<Called>,
}
