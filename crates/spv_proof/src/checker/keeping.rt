//! Facts that are put into the arena.

ghost use Rattle.std.specs.Prelude.{◌≡◌, ◌<◌, ◌++◌, [], ◌∷◌, map, length, take, Some, None, IfOk, OnOk, IfErr, OnErr};
ghost use Rattle.spv_term.specs.Arena.{Arena, Extends, AllBelow, tree, trees_of, IsArena};
ghost use Rattle.spv_proof_rules.specs.Stops.{kept};
ghost use Rattle.spv_proof_steps.specs.Steps.{fact_of, FactStands};
ghost use Rattle.spv_rules.specs.making.KeptFaults.{IsKeptFault};
ghost use Rattle.spv_proof.specs.checker.KeptFaults.{IsAddFault};

use crate::checker::stops::CheckStop;
use spv_proof_steps::Fact;
use spv_term::{Head, TermFault, TermId, Terms};

// Puts a fact into the arena, where it does not stand there.
pub(crate) fn make(terms: &mut Terms, fact: Fact) -> Result<TermId, TermFault>
    requires { FactStands terms.old fact }
    ensures in_range { IfOk result (λ t. t.0 < length terms.new.nodes) }
    ensures tree { IfOk result (λ t. tree terms.new t ≡ fact_of terms.old fact) }
    ensures grows { Extends terms.old terms.new }
    ensures kept { OnOk result
        (kept terms.old.most (trees_of terms.old.nodes) (fact_of terms.old fact) ≡ Some (trees_of terms.new.nodes)) }
    ensures fault { IfErr result (λ f. IsKeptFault f (kept terms.old.most (trees_of terms.old.nodes) (fact_of terms.old fact))) }
    ensures unchanged { OnErr result (terms.new ≡ terms.old) }
{
    terms.law_arena();
    match fact {
        Fact::Known(t) => Ok(t),
        Fact::Negation(t) => terms.make(Head::Not, &[t]),
        Fact::Equation(s, t) => terms.make(Head::Eq, &[s, t]),
        Fact::Below(s, t) => terms.make(Head::Lt, &[s, t]),
        Fact::AtMost(s, t) => terms.make(Head::Le, &[s, t]),
    }
}

// Adds a fact at the end.
pub(crate) fn add(terms: &mut Terms, facts: &mut Vec<TermId>, fact: Fact) -> Result<(), CheckStop>
    requires fact { FactStands terms.old fact }
    requires facts { AllBelow (length terms.old.nodes) facts.old.items }
    ensures facts { OnOk result
        (map (tree terms.new) facts.new.items ≡ map (tree terms.old) facts.old.items ++ fact_of terms.old fact ∷ []) }
    ensures in_range { OnOk result (AllBelow (length terms.new.nodes) facts.new.items) }
    ensures before { OnOk result (take (length facts.old.items) facts.new.items ≡ facts.old.items) }
    ensures grows { Extends terms.old terms.new }
    ensures kept { OnOk result
        (kept terms.old.most (trees_of terms.old.nodes) (fact_of terms.old fact) ≡ Some (trees_of terms.new.nodes)) }
    ensures fault { IfErr result (λ e. IsAddFault e (kept terms.old.most (trees_of terms.old.nodes) (fact_of terms.old fact))) }
    ensures unchanged { OnErr result (terms.new ≡ terms.old) }
{
    facts.reserve(1)?;
    let t = make(terms, fact)?;
    facts.push(t).unwrap();
    Ok(())
}
