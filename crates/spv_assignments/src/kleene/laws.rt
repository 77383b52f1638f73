// What is true of computed values, each law the contract of a function that does nothing.

ghost use Rattle.spv_assignments.specs.kleene.Laws.{ClashTogether, ComeToTheSame, ComputeTheSame};

/// Where two ways to give values differ only at terms to which each gives what it computes for them, or nothing, they compute the same value for
/// each term, each term has the same value, and where both give the same to a term, it clashes for both or for none.
pub fn law_same()
    ensures computed { ComputeTheSame }
    ensures values { ComeToTheSame }
    ensures clashes { ClashTogether }
{}
