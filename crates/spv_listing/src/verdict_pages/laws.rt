// Lines worked by hand, each law the contract of a function that does nothing.

ghost use Rattle.spv_listing.specs.verdict_pages.Rows.{HalfIsUnproved, LoopIsUnproved, InstanceIsBetween, ThreeInstances, WideProduct, OtherProof, NoSplits, TwoSplits, NoPivots, ManyTerms, WideRelation, WideQuotient, GapIsProved, GapIsBare, CasesAreInOrder, NoConditions, Counts, UnprovedComesFirst, GivenUpComesSecond, NothingToCheck, OneIsNotAccepted};

/// Lines of verdicts with a table.
pub fn law_unproved_lines()
    ensures half { HalfIsUnproved }
    ensures turn { LoopIsUnproved }
    ensures instance { InstanceIsBetween }
{}

/// Lines of verdicts that name a limit.
pub fn law_limit_lines()
    ensures no_splits { NoSplits }
    ensures two_splits { TwoSplits }
    ensures no_pivots { NoPivots }
    ensures many_terms { ManyTerms }
    ensures wide_relation { WideRelation }
    ensures wide_quotient { WideQuotient }
    ensures instances { ThreeInstances }
    ensures wide_product { WideProduct }
{}

/// The line of a proof that was handed in and is not accepted.
pub fn law_other_proof()
    ensures { OtherProof }
{}

/// Lines of proofs.
pub fn law_proof_lines()
    ensures gap { GapIsProved }
    ensures bare { GapIsBare }
    ensures cases { CasesAreInOrder }
{}

/// The last lines of pages.
pub fn law_totals()
    ensures no_conditions { NoConditions }
    ensures counts { Counts }
    ensures unproved { UnprovedComesFirst }
    ensures given_up { GivenUpComesSecond }
    ensures nothing_checked { NothingToCheck }
    ensures not_accepted { OneIsNotAccepted }
{}
