// What is true of the questions of a search, as the contract of a function that does nothing.

ghost use Rattle.spv_trail.specs.search_setup.Laws.{QuestionsAreNodes, QuestionsStandInAtoms};

/// Each question of a search is a subterm of an atom. So each is a node of a graph to which the atoms were added.
pub fn law_questions()
    ensures stand { QuestionsStandInAtoms }
    ensures nodes { QuestionsAreNodes }
{}
