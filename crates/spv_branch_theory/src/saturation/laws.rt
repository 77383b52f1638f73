// What a full path comes to, each law the contract of a function that does nothing but to cite another one.

ghost use Rattle.spv_branch_theory.specs.saturation.Laws.{FullIsShown, ListedAreNodes, NeverNotShown, ShownIsLeaf, ShownIsUnproved, ShownSurvives, WideIsReached};

use crate::model_construction::law_full_table;

/// A path that is shown live, on which each question has a truth and each equation of whole numbers that is false has an order, ends in a
/// leaf, and its table falsifies the condition where no operation is too wide.
pub fn law_filled_path()
    ensures leaf { ShownIsLeaf }
    ensures survives { ShownSurvives }
{}

/// A state whose path is such: what a table lists was added to the graph, and the state's table is that of the leaf. No hypothesis is
/// false in it, and the goal is not true; where no operation is too wide, it shows the condition false; and where it does, the condition is
/// unproved with it.
pub fn law_full_state()
    ensures nodes { ListedAreNodes }
    ensures shown { FullIsShown }
    ensures never { NeverNotShown }
    ensures unproved { ShownIsUnproved }
{
    law_full_table();
}

/// Where an operation in the table of such a state is too wide, the search may give up for it.
pub fn law_wide_value()
    ensures { WideIsReached }
{
    law_full_table();
}
