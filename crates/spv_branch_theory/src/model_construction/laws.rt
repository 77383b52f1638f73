// What the table of both sides is, as the contract of a function that does nothing.

ghost use Rattle.spv_branch_theory.specs.model_construction.Laws.{IsTableOfLeaf};

/// The table of both sides is that of a leaf that says of the terms that it lists what both sides say.
pub fn law_full_table()
    ensures { IsTableOfLeaf }
{}
