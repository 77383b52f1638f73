// What is true of a path on which nothing is left to split on, each law the contract of a function that does nothing.

ghost use Rattle.spv_decisions.specs.decision.Laws.{AtomsFillQuestions, NothingLeftIsFilled};

/// Where evaluations add nothing more and each atom has a value, each question has one. And where nothing is left to split on, each question has a
/// truth, and an order is known of each equation of whole numbers that is false.
pub fn law_full()
    ensures questions { AtomsFillQuestions }
    ensures filled { NothingLeftIsFilled }
{}
