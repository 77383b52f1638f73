//! The paths that are still to be closed.

ghost use Rattle.std.specs.Prelude.{◌≡◌, ◌<◌, ◌≤◌, ◌++◌, [], ◌∷◌, length, Some, None, IfOk, OnOk, IfErr};
ghost use Rattle.spv_term.specs.Arena.{Extends, AllBelow, tree, trees_of, IsArena};
ghost use Rattle.spv_proof_rules.specs.Outcomes as outcomes;
ghost use Rattle.spv_proof_steps.specs.Candidates.{IsBool};
ghost use Rattle.spv_proof.specs.checker.Ends.{EndsAs};
ghost use Rattle.spv_proof.specs.checker.Stacks.{facts_in, pushed_cases, BranchIn, branch_in, Begun};

use crate::checker::casing::Cases;
use crate::checker::keeping::add;
use crate::checker::stops::CheckStop;
use spv_proof_steps::Fact;
use spv_term::{TermId, Terms};
use std::alloc::{AllocError, Global};

/// A path that is still to be closed: how many of the facts are its own, and its case, which is added
/// when its node begins.
#[derive(Clone, Copy, Debug)]
pub(crate) struct Branch {
    pub(crate) mark: usize,
    pub(crate) opens: Option<Fact>,
}

// The one path of which a proof begins: it has no facts and no case.
pub(crate) fn root(alloc: Global) -> Result<Vec<Branch>, AllocError>
    ensures { IfOk result (λ pending. pending.items ≡ record { mark = 0; opens = None } ∷ []) }
{
    let mut pending = Vec::new(alloc);
    pending.push(Branch {
        mark: 0,
        opens: None,
    })?;
    Ok(pending)
}

// Puts a case behind all other paths, so that it comes next.
fn push_case(pending: &mut Vec<Branch>, mark: usize, fact: Fact) -> Result<(), AllocError>
    ensures { OnOk result (pending.new.items ≡ pending.old.items ++ record { mark = mark; opens = Some fact } ∷ []) }
{
    pending.push(Branch {
        mark,
        opens: Some(fact),
    })?;
    Ok(())
}

// Puts the cases of an atom behind all other paths, the first of them last.
pub(crate) fn push_cases(
    pending: &mut Vec<Branch>,
    mark: usize,
    cases: Cases,
) -> Result<(), AllocError>
    ensures { OnOk result (pending.new.items ≡ pending.old.items ++ pushed_cases mark (facts_in cases)) }
{
    match cases {
        Cases::Two(t) => {
            push_case(pending, mark, Fact::Negation(t))?;
            push_case(pending, mark, Fact::Known(t))
        }
        Cases::Three(s, t) => {
            push_case(pending, mark, Fact::Below(t, s))?;
            push_case(pending, mark, Fact::Below(s, t))?;
            push_case(pending, mark, Fact::Equation(s, t))
        }
    }
}

// Takes the facts that are not a path's own away, and adds its case.
pub(crate) fn begin(
    terms: &mut Terms,
    facts: &mut Vec<TermId>,
    branch: Branch,
) -> Result<(), CheckStop>
    requires facts { AllBelow (length terms.old.nodes) facts.old.items }
    requires branch { BranchIn terms.old branch }
    requires mark { branch.mark ≤ length facts.old.items }
    ensures begun { OnOk result (Begun terms.old facts.old.items branch terms.new facts.new.items) }
    ensures stop { IfErr result (λ e. EndsAs terms.new e
        (outcomes.begin terms.old.most (trees_of terms.old.nodes) (branch_in terms.old facts.old.items branch))) }
    ensures grows { Extends terms.old terms.new }
{
    facts.truncate(branch.mark);
    match branch.opens {
        Some(fact) => add(terms, facts, fact),
        None => Ok(()),
    }
}
