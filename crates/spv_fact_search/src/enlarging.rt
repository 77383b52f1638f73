// A condition with all that is refuted with it.

ghost use Rattle.std.specs.Prelude.{◌≡◌, ◌<◌, ◌++◌, [], ◌∷◌, map, length, None, Ok, IfOk, IfSome, OnOk};
ghost use Rattle.std.specs.List.{filter_map};
ghost use Rattle.spv_schemas.specs.Instances.{instance_fact};
ghost use Rattle.spv_term.specs.Arena.{AllBelow, Extends, tree};
ghost use Rattle.spv_proof_rules.specs.Stand.{question};
ghost use Rattle.spv_proof.specs.schema_facts.Instances.{AllIn, instance_in};
ghost use Rattle.spv_models.specs.leaf_models.Laws.{AreFormulas};
ghost use Rattle.spv_models.specs.leaf_models.Tables.{formulas_of};
ghost use Rattle.spv_search_terms.specs.subterms.Walk.{AreBehind};
ghost use Rattle.spv_verdicts.specs.Schemas.{HasTooManyCounted, further_facts, used};
ghost use Rattle.spv_fact_search.specs.Enlarging.{GainsParts, IsEnlarged, IsEnough};

use spv_logic::Head;
use spv_logic::list::List;
use spv_proof::schema_facts::{Instance, fact, instances};
use spv_schemas::laws::law_schema;
use spv_search_terms::condition_copy::copy_condition;
use spv_search_terms::subterms::{IdSet, made, subterms};
use spv_term::{Condition, TermFault, TermId, Terms};
use spv_verdicts::translation::law_counted_terms;
use std::alloc::{AllocError, Global};

// How many terms may count.
const MOST: u32 = 1_000_000;

/// A condition in an arena of its own, whose hypotheses are all that is refuted with another one, and whose goal is FALSE.
#[derive(Drop)]
pub(crate) struct Enlarged {
    /// The arena.
    pub(crate) terms: Terms,
    /// The condition: the hypotheses of the other one, that its goal is false, and the facts of schemas about the terms that it uses.
    pub(crate) condition: Condition,
    /// How many terms a search may have over it: with one more, more of them count than may.
    pub(crate) most: u32,
}

/// The terms that a condition uses: the different subterms of its formulas, in the order of their first appearance, arguments first.
pub(crate) fn used_terms(
    alloc: Global,
    terms: &Terms,
    condition: &Condition,
) -> Result<IdSet, AllocError>
    requires given { AllBelow (length terms.now.nodes) condition.now.given }
    requires goal { condition.now.goal.0 < length terms.now.nodes }
    ensures used { IfOk result (λ ids. map (tree terms.now) ids ≡ used (question terms.now condition.now)) }
    ensures in_range { IfOk result (AllBelow (length terms.now.nodes)) }
    ensures behind { IfOk result (AreBehind terms.now) }
{
    let mut roots = Vec::new(alloc);
    roots.extend_from_slice(condition.given.as_slice())?;
    roots.push(condition.goal)?;
    subterms(alloc, terms, roots.as_slice())
}

// One term more.
fn push(made: &mut Vec<TermId>, t: TermId) -> Result<(), AllocError>
    ensures { OnOk result (made.new.items ≡ made.old.items ++ t ∷ []) }
{
    made.push(t)?;
    Ok(())
}

// The facts of instances, each made behind its subterms. None where there are more terms than may count before all facts are made.
fn facts_of(
    alloc: Global,
    terms: &mut Terms,
    found: &[Instance],
) -> Result<Option<Vec<TermId>>, TermFault>
    requires { AllIn terms.old found.now }
    ensures facts { IfOk result (λ o. IfSome o (λ made. map (tree terms.new) made.items
        ≡ filter_map (instance_fact terms.old.shapes terms.old.decls) (map (instance_in terms.old) found.now))) }
    ensures in_range { IfOk result (λ o. IfSome o (λ made. AllBelow (length terms.new.nodes) made.items)) }
    ensures parts { OnOk result (GainsParts terms.old
        (filter_map (instance_fact terms.old.shapes terms.old.decls) (map (instance_in terms.old) found.now)) terms.new) }
    ensures many { result ≡ Ok None → 1000000 < length terms.new.nodes }
    ensures grows { Extends terms.old terms.new }
{
    let mut made = Vec::new(alloc);
    for instance in found {
        if terms.len() > MOST {
            return Ok(None);
        }
        let about = instance.about.as_slice();
        if let Some(t) = fact(alloc, terms, instance.kind, about, instance.field)? {
            push(&mut made, t)?;
        }
    }
    Ok(Some(made))
}

// The facts of schemas about the terms that a condition uses. None where there are more terms than may count before all of them are made.
fn further_facts(
    alloc: Global,
    terms: &mut Terms,
    condition: &Condition,
) -> Result<Option<Vec<TermId>>, TermFault>
    requires given { AllBelow (length terms.old.nodes) condition.now.given }
    requires goal { condition.now.goal.0 < length terms.old.nodes }
    ensures facts { IfOk result (λ o. IfSome o (λ made. map (tree terms.new) made.items ≡ further_facts (question terms.old condition.now))) }
    ensures in_range { IfOk result (λ o. IfSome o (λ made. AllBelow (length terms.new.nodes) made.items)) }
    ensures parts { OnOk result (GainsParts terms.old (further_facts (question terms.old condition.now)) terms.new) }
    ensures many { result ≡ Ok None → 1000000 < length terms.new.nodes }
    ensures grows { Extends terms.old terms.new }
{
    let used = used_terms(alloc, terms, condition)?;
    let found = instances(alloc, terms, used.as_slice())?;
    Ok(facts_of(alloc, terms, found.as_slice())?)
}

// Hypotheses, one more, and others behind it.
fn joined(
    alloc: Global,
    first: &[TermId],
    one: TermId,
    others: &[TermId],
) -> Result<List<TermId>, AllocError>
    ensures { IfOk result (λ ids. ids ≡ first.now ++ one ∷ others.now) }
{
    let mut ids = Vec::new(alloc);
    ids.extend_from_slice(first)?;
    ids.push(one)?;
    ids.extend_from_slice(others)?;
    Ok(List::from_vec(ids))
}

// A condition with all that is refuted with it; none where more terms count than may. `Size` comes where there are more terms than ids.
fn made_in_own(
    alloc: Global,
    terms: &Terms,
    condition: &Condition,
) -> Result<Option<Enlarged>, TermFault>
    requires given { AllBelow (length terms.now.nodes) condition.now.given }
    requires goal { condition.now.goal.0 < length terms.now.nodes }
    requires formulas { AreFormulas terms.now.shapes terms.now.decls (formulas_of (question terms.now condition.now).sequent) }
    ensures enlarged { IfOk result (λ o. IfSome o (λ e. IsEnlarged terms.now condition.now e.terms e.condition)) }
    ensures enough { IfOk result (λ o. IfSome o (λ e. IsEnough (question terms.now condition.now) e.most)) }
    ensures many { result ≡ Ok None → HasTooManyCounted (question terms.now condition.now) 1000000 }
{
    law_counted_terms();
    let copied = copy_condition(alloc, terms, condition, u32::MAX)?;
    let mut own = copied.terms;
    let claim = copied.condition;
    let facts = further_facts(alloc, &mut own, &claim)?;
    own.law_arena();
    let Some(facts) = facts else {
        return Ok(None);
    };
    let before = own.len();
    let denied = made(&mut own, Head::Not, &[claim.goal])?;
    let most = if own.len() == before { MOST } else { MOST + 1 };
    let given = joined(alloc, claim.given.as_slice(), denied, facts.as_slice())?;
    Ok(Some(Enlarged {
        terms: own,
        condition: Condition {
            given,
            goal: copied.base.falsity,
            origin: claim.origin,
        },
        most,
    }))
}

/// A condition with all that is refuted with it; none where more terms count than may. There is no memory where there are more terms than ids.
pub(crate) fn enlarge(
    alloc: Global,
    terms: &Terms,
    condition: &Condition,
) -> Result<Option<Enlarged>, AllocError>
    requires given { AllBelow (length terms.now.nodes) condition.now.given }
    requires goal { condition.now.goal.0 < length terms.now.nodes }
    requires formulas { AreFormulas terms.now.shapes terms.now.decls (formulas_of (question terms.now condition.now).sequent) }
    ensures enlarged { IfOk result (λ o. IfSome o (λ e. IsEnlarged terms.now condition.now e.terms e.condition)) }
    ensures formulas { IfOk result (λ o. IfSome o (λ e. AreFormulas e.terms.shapes e.terms.decls (formulas_of (question e.terms e.condition).sequent))) }
    ensures enough { IfOk result (λ o. IfSome o (λ e. IsEnough (question terms.now condition.now) e.most)) }
    ensures many { result ≡ Ok None → HasTooManyCounted (question terms.now condition.now) 1000000 }
{
    law_schema();
    match made_in_own(alloc, terms, condition) {
        Ok(enlarged) => Ok(enlarged),
        Err(_) => Err(AllocError),
    }
}
