// What is true of nodes that take branches, each law the contract of a function that does nothing.

ghost use Rattle.spv_search.specs.branches.Laws.{LastIsIn, NodesAreWhole, NodesGoOn, NodesTakeRoom, OthersAreNew, TreeIsClosed, TreeIsKept, TreeIsProof, TreeStands};

/// One more node takes the branch that comes next, and there is less room behind it.
pub fn law_branches()
    ensures goes_on { NodesGoOn }
    ensures less { NodesTakeRoom }
{}

/// Nodes after which no branch is left are one whole tree, which stands: it is kept, where a node is open, and a proof, where none is.
pub fn law_tree()
    ensures whole { NodesAreWhole }
    ensures stands { TreeStands }
    ensures kept { TreeIsKept }
    ensures closed { TreeIsClosed }
    ensures proof { TreeIsProof }
{}

/// An atom that no case is of was not split on above; and the last one of cases that are in the arena may be told.
pub fn law_cases()
    ensures new { OthersAreNew }
    ensures last { LastIsIn }
{}
