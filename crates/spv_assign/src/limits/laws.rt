// What is true of walks and the limits that they meet, as the contract of a function that does nothing.

ghost use Rattle.spv_assign.specs.limits.Laws.{MadeMeetsNone, OneIsMet};

/// From an arena without terms: a walk of which all was made meets no limit, and no walk meets both.
pub fn law_one_limit()
    ensures made { MadeMeetsNone }
    ensures one { OneIsMet }
{}
