//! Worked proofs for each rule: what is accepted, and what each way to break it makes of it. That the
//! checker answers the same is its contract.

ghost use Rattle.spv_proof_tests.specs.Rules.{OfGiven, OfRefl, OfSymm, OfTrans, OfCong, OfEval, OfContra};
ghost use Rattle.spv_proof_tests.specs.Sums.{OfLinear};
ghost use Rattle.spv_proof_tests.specs.Cases.{OfTwoCases, OfThreeCases, OfNestedCases};

/// Hypotheses and equations.
pub fn law_equations()
    ensures given { OfGiven }
    ensures refl { OfRefl }
    ensures symm { OfSymm }
    ensures trans { OfTrans }
    ensures cong { OfCong }
{}

/// Evaluations.
pub fn law_evaluations()
    ensures { OfEval }
{}

/// Ends.
pub fn law_ends()
    ensures { OfContra }
{}

/// Sums of multiples.
pub fn law_multiples()
    ensures { OfLinear }
{}

/// Splits.
pub fn law_splits()
    ensures two { OfTwoCases }
    ensures three { OfThreeCases }
    ensures nested { OfNestedCases }
{}
