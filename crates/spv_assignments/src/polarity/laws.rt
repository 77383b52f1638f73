// What is true of a term and its core, as the contract of a function that does nothing.

ghost use Rattle.spv_assignments.specs.polarity.Laws.{CoresAreTruths, CoresSayTheSame, CoresStandAlone, NothingFollowsFromItself};

/// A term and its core, or the negation of its core, say the same: they are one formula, or each evaluates from the other. Of one
/// formula that is not so: a variable does not evaluate from itself.
pub fn law_cores()
    ensures same { CoresSayTheSame }
    ensures truths { CoresAreTruths }
    ensures one { CoresStandAlone }
    ensures itself { NothingFollowsFromItself }
{}
