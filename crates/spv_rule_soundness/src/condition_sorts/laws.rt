// The theorem on conditions, as the contract of a function that does nothing.

ghost use Rattle.spv_rule_soundness.specs.condition_sorts.Laws.{ConditionsAreSorted};

/// Each formula of the conditions of a well typed program without routines, NEW and assignments to parts is of sort Bool.
pub fn law_sorted_conditions()
    ensures { ConditionsAreSorted }
{}
