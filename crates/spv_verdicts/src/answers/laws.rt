// What is true of trees that are kept as lists, each law the contract of a function that does nothing.

ghost use Rattle.spv_verdicts.specs.answers.Laws.{ClosedIsAccepted, ClosedIsTree, NodesAreOneTree};

/// The nodes of a tree are those of one tree, and none is left over.
pub fn law_tree()
    ensures { NodesAreOneTree }
{}

/// A tree whose paths are all closed is an accepted proof, and its nodes are as those of a proof are.
pub fn law_closed()
    ensures accepted { ClosedIsAccepted }
    ensures tree { ClosedIsTree }
{}
