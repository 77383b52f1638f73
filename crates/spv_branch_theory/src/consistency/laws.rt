// What an open state shows, as the contract of a function that does nothing.

ghost use Rattle.spv_branch_theory.specs.consistency.Laws.{OpenIsLive, OpenShowsLive};

/// A state that is open for the atoms of a condition and the facts of a path, to which evaluations add nothing, shows that the path is
/// live.
pub fn law_live_state()
    ensures shown { OpenShowsLive }
    ensures live { OpenIsLive }
{}
