// What is true of what is refuted together with facts of schemas, each law the contract of a function that does nothing.

ghost use Rattle.spv_verdicts.specs.translation.Laws.{AtMostOneMore, BranchSurvives, CountsAreClose, ExchangedIsAccepted, ExchangedIsKept, ExchangedLeads, ExchangedCloses, NoneMore, ReplacementsExchange};

/// Where steps that take the place of hypotheses do the same, each list of steps leads to where the one
/// with these steps does, and so does each proof: one that is accepted of one question is then accepted of the other.
pub fn law_exchange()
    ensures leads { ExchangedLeads }
    ensures closes { ExchangedCloses }
    ensures accepted { ExchangedIsAccepted }
{}

/// A tree that is kept by a search that refutes a condition together with facts of schemas, with these steps, is
/// kept for the condition.
pub fn law_kept()
    ensures { ExchangedIsKept }
{}

/// Such steps are those of `replacements_of`, over steps that state the condition's facts of schemas.
pub fn law_replacements()
    ensures { ReplacementsExchange }
{}

/// In a table that survives what is refuted together the condition's own atoms, which come first, have their truths.
pub fn law_branch()
    ensures { BranchSurvives }
{}

/// A search that refutes all together has at most one term more than those that count, the negation of the
/// goal, and no more where that counts too.
pub fn law_counted_terms()
    ensures close { CountsAreClose }
    ensures one_more { AtMostOneMore }
    ensures none_more { NoneMore }
{}
