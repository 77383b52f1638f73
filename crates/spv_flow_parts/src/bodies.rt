// What is looked up for a body.

use spv_expression_terms::sort_table::SortTable;
use spv_logic::RoutineId;
use std::alloc::Global;

/// What is looked up for the statements of a routine's body, or of the main block.
#[derive(Drop)]
pub struct Body<'i> {
    /// Where memory comes from.
    pub alloc: Global,
    /// The routine; none for the main block.
    pub here: Option<RoutineId>,
    /// The sorts of the names that annotations see.
    pub names: SortTable<'i>,
    /// The sorts of the variables that expressions see.
    pub variables: SortTable<'i>,
}
