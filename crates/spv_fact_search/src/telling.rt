// What was found of all that is refuted, told of the condition.

ghost use Rattle.std.specs.Prelude.{◌≡◌, ◌<◌, List as Items, Some, length, map, IfOk};
ghost use Rattle.spv_logic.specs.declared.operators.Head.TheVariants.{False};
ghost use Rattle.spv_logic.specs.Terms.{term, no_terms};
ghost use Rattle.spv_schemas.specs.Kinds.{number_of_kind};
ghost use Rattle.spv_term.specs.Arena.{AllBelow, Arena, tree};
ghost use Rattle.spv_search_terms.specs.condition_copy.Copies.{StandsFor};
ghost use Rattle.spv_proof_rules.specs.Stand.{question, StepsIn};
ghost use Rattle.spv_proof.specs.schema_facts.Instances.{AllIn, instance_in};
ghost use Rattle.spv_verdicts.specs.Schemas.{enlarged};
ghost use Rattle.spv_verdicts.specs.translation.Exchanged.{Exchanges};
ghost use Rattle.spv_verdicts.specs.translation.Replacements.{stated_instance};
ghost use Rattle.spv_fact_search.specs.Enlarging.{IsEnough};
ghost use Rattle.spv_fact_search.specs.Telling.{IsFoundOf, IsLimitOf, IsLimitWith, IsToldWith, schema_step};

use crate::enlarging::used_terms;
use spv_atoms::Step;
use spv_logic::list::List;
use spv_proof::schema_facts::{Instance, instances};
use spv_schemas::SchemaKind;
use spv_schemas::laws::law_kinds;
use spv_term::{Condition, TermId, Terms};
use spv_verdicts::answers::{Limit, Limits, Unproved, Verdict};
use spv_verdicts::translation::{
    exchanged_proof, exchanged_tree, law_branch, law_exchange, law_kept, law_replacements,
    own_branch, replacements_of,
};
use std::alloc::{AllocError, Global};

// The number of a kind.
fn number_of(kind: SchemaKind) -> u8
    ensures { result ≡ number_of_kind kind }
{
    match kind {
        SchemaKind::SelectStoreSame => 1,
        SchemaKind::SelectStoreOther => 2,
        SchemaKind::FieldPutSame => 3,
        SchemaKind::FieldPutOther => 4,
        SchemaKind::CellSetCellSame => 5,
        SchemaKind::CellSetCellOther => 6,
        SchemaKind::PointerToSetCell => 7,
        SchemaKind::CellExtendSame => 8,
        SchemaKind::CellExtendOther => 9,
        SchemaKind::PointerToExtend => 10,
        SchemaKind::PointerToNil => 11,
        SchemaKind::CarCons => 12,
        SchemaKind::CdrCons => 13,
        SchemaKind::AtomCons => 14,
        SchemaKind::ConsCarCdr => 15,
        SchemaKind::DivMod => 16,
        SchemaKind::ModOfNonNegative => 17,
        SchemaKind::ModOfNonPositive => 18,
        SchemaKind::DivOfNumerals => 19,
        SchemaKind::ModOfNumerals => 20,
    }
}

// The step that adds the fact of an instance.
fn step_of(alloc: Global, instance: &Instance) -> Result<Step, AllocError>
    ensures { IfOk result (λ s. s ≡ schema_step instance.now) }
{
    let about = instance.about.as_slice().to_vec(alloc)?;
    Ok(Step::Schema(
        number_of(instance.kind),
        List::from_vec(about),
        instance.field,
    ))
}

// The steps that add the facts of instances, in their order.
fn steps_of(alloc: Global, found: &[Instance]) -> Result<Vec<Step>, AllocError>
    ensures { IfOk result (λ steps. steps.items ≡ map schema_step found.now) }
{
    let mut steps = Vec::new(alloc);
    for instance in found {
        steps.push(step_of(alloc, instance)?)?;
    }
    Ok(steps)
}

// The step for each number of a hypothesis of what claims that all is refuted.
fn replacements(
    alloc: Global,
    terms: &Terms,
    condition: &Condition,
    falsity: TermId,
) -> Result<Vec<Step>, AllocError>
    requires given { AllBelow (length terms.now.nodes) condition.now.given }
    requires goal { condition.now.goal.0 < length terms.now.nodes }
    requires falsity { StandsFor terms.now falsity (term False no_terms) }
    ensures exchanges { IfOk result (λ steps. Exchanges (enlarged (question terms.now condition.now)) (question terms.now condition.now) steps.items) }
    ensures in_range { IfOk result (λ steps. StepsIn terms.now steps.items) }
{
    law_kinds();
    law_replacements();
    let used = used_terms(alloc, terms, condition)?;
    let found = instances(alloc, terms, used.as_slice())?;
    let facts = steps_of(alloc, found.as_slice())?;
    Ok(replacements_of(alloc, condition.given.as_slice().len(), falsity, facts)?)
}

// A limit that was reached where all is refuted, told of the condition.
fn limit_of(
    alloc: Global,
    terms: &Terms,
    condition: &Condition,
    falsity: TermId,
    limits: &Limits,
    limit: Limit,
) -> Result<Limit, AllocError>
    requires given { AllBelow (length terms.now.nodes) condition.now.given }
    requires goal { condition.now.goal.0 < length terms.now.nodes }
    requires falsity { StandsFor terms.now falsity (term False no_terms) }
    requires enough { IsEnough (question terms.now condition.now) limits.now.terms }
    requires reached { IsLimitOf terms.now condition.now limits.now limit }
    ensures { IfOk result (IsLimitWith terms.now condition.now limits.now) }
{
    let _ = limits;
    law_kept();
    match limit {
        Limit::Splits(tree) => {
            let steps = replacements(alloc, terms, condition, falsity)?;
            Ok(Limit::Splits(exchanged_tree(alloc, steps.as_slice(), &tree)?))
        }
        Limit::Instances => Ok(Limit::Instances),
        Limit::Number(wide) => Ok(Limit::Number(wide)),
        Limit::Pivots(evidence) => Ok(Limit::Pivots(evidence)),
        Limit::Terms(_) => Ok(Limit::Terms(1_000_000)),
    }
}

/// A verdict that was found where all that is refuted with a condition was searched through, told of the condition: its proof has steps for the
/// facts of schemas, its branch the condition's own atoms.
pub(crate) fn of_condition(
    alloc: Global,
    terms: &Terms,
    condition: &Condition,
    falsity: TermId,
    limits: &Limits,
    verdict: Verdict,
) -> Result<Verdict, AllocError>
    requires given { AllBelow (length terms.now.nodes) condition.now.given }
    requires goal { condition.now.goal.0 < length terms.now.nodes }
    requires falsity { StandsFor terms.now falsity (term False no_terms) }
    requires enough { IsEnough (question terms.now condition.now) limits.now.terms }
    requires found { IsFoundOf terms.now condition.now limits.now verdict }
    ensures { IfOk result (IsToldWith terms.now condition.now limits.now) }
{
    law_exchange();
    law_branch();
    match verdict {
        Verdict::Proved(proof) => {
            let steps = replacements(alloc, terms, condition, falsity)?;
            Ok(Verdict::Proved(exchanged_proof(alloc, steps.as_slice(), &proof)?))
        }
        Verdict::Unproved(u) => Ok(Verdict::Unproved(Unproved {
            branch: own_branch(alloc, terms, condition, u.branch.as_slice())?,
            table: u.table,
            instances: u.instances,
        })),
        Verdict::GaveUp(rounds, limit) => Ok(Verdict::GaveUp(
            rounds,
            limit_of(alloc, terms, condition, falsity, limits, limit)?,
        )),
        Verdict::NotAccepted => Ok(Verdict::NotAccepted),
    }
}
