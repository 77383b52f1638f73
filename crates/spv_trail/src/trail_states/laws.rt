// What is true of a path on which all is told, each law the contract of a function that does nothing.

ghost use Rattle.spv_trail.specs.trail_states.Laws.{FullRestIsFull, RestIsLive, RestIsOpen};

/// Where both sides are open, each question that has a value was told with it, and evaluations add nothing more, the state is open and the
/// path is live; and where nothing is left to split on, the state is full.
pub fn law_told_path()
    ensures open { RestIsOpen }
    ensures live { RestIsLive }
    ensures full { FullRestIsFull }
{}
