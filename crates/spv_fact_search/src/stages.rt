// A search that begins with a part of the pair equations. Where a condition has many applications of one head, most of the equations of their arguments are
// never asked for. So variables stand for those that are numbers or truths; the condition that comes of it is searched through, and what is found is told of
// the condition itself and tested there: a proof by the checker, a table by a look at it. Where two applications of one head have arguments that are worth the
// same in a table, and are not worth the same, they stand for themselves from then on. Where nothing comes of it, the search over all pair equations is made.

ghost use Rattle.std.specs.Prelude.{◌≡◌, ◌<◌, length, IfOk, IfSome};
ghost use Rattle.spv_term.specs.declared.nodes.Condition.{Condition};
ghost use Rattle.spv_term.specs.Arena.{AllBelow, Arena};
ghost use Rattle.spv_proof_rules.specs.Stand.{IsProof, question};
ghost use Rattle.spv_models.specs.leaf_models.Laws.{AreFormulas};
ghost use Rattle.spv_models.specs.leaf_models.Tables.{formulas_of};
ghost use Rattle.spv_verdicts.specs.Verdicts.{Limits};
ghost use Rattle.spv_verdicts.specs.answers.Views.{IsDecided};
ghost use Rattle.spv_fact_search.specs.Asking.{IsOwn};
ghost use Rattle.spv_fact_search.specs.Stages.{CopyGrows, IsOutcomeOf, IsStageOf, StageGrows};

use crate::abstracting::{abstracted, exchanged, fitting, is_asked, variables_for};
use crate::choosing::{among, applications, are_many, numbers_and_truths, without};
use crate::images::Images;
use crate::numbers::{Numbers, whole_part};
use crate::reasoning::decide_by_parts;
use crate::relevance::{all_places, near, with_these};
use crate::returning::Return;
use crate::trying::{Trial, tried_near};
use spv_atoms::{Proof, ProofNode};
use spv_search::deciding::decide_near;
use spv_search_terms::condition_copy::{Copied, copy_all, copy_condition};
use spv_search_terms::subterms::subterms;
use spv_table::Table;
use spv_term::{Condition, TermFault, TermId, Terms};
use spv_trimming::testing::{are_there, proof_of};
use spv_trimming::with_shorter_proof;
use spv_verdicts::answers::{Decided, Limits, Verdict};
use std::alloc::{AllocError, Global};

// How many stages there are at most, with facts and without any, and how many splits each may make.
const MOST_STAGES: usize = 64;

const MOST_STAGES_ALONE: usize = 4;

const MOST_SPLITS: u64 = 2_000;

// How many facts a stage takes that takes all of them, and with how many there are stages at all.
const MOST_FACTS: usize = 400;

const FACTS_AT_ALL: usize = 20_000;

// A condition in an arena of its own, and one in which variables stand for applications.
#[derive(Drop)]
struct Stage {
    terms: Terms,
    condition: Condition,
    abstracted: Condition,
    places: Vec<usize>,
    applications: Vec<TermId>,
    variables: Vec<TermId>,
}

// What is taken in a stage: which applications stand for themselves; how many hypotheses come first that are no facts, of which the last one is what the
// search is about, and how many facts there are; and whether all of these are taken, or those alone that are near to the first hypotheses.
#[derive(Drop)]
struct Choice {
    apart: Vec<TermId>,
    first: usize,
    facts: usize,
    all_facts: bool,
}

// What comes of a stage.
#[derive(Drop)]
enum Outcome {
    // A verdict on the condition itself.
    Decided(Decided),
    // These applications have to stand for themselves.
    Apart(Vec<TermId>),
    // The table that was found is not one of the condition: what was left out may be false in it.
    NotShown,
    // Nothing.
    Nothing,
}

/// A copy of a condition in an arena of its own, if there is room.
pub(crate) fn own_copy(
    alloc: Global,
    terms: &Terms,
    condition: &Condition,
) -> Result<Option<Copied>, AllocError>
    requires given { AllBelow (length terms.now.nodes) condition.now.given }
    requires goal { condition.now.goal.0 < length terms.now.nodes }
    ensures { IfOk result (λ o. IfSome o (λ k. IsOwn terms.now condition.now k.terms k.condition)) }
{
    match copy_condition(alloc, terms, condition, u32::MAX) {
        Ok(copied) => Ok(Some(copied)),
        Err(TermFault::Size) => Ok(None),
        Err(TermFault::Memory) => Err(AllocError),
    }
}

// The places of the hypotheses of a condition that a stage has.
fn places_of(
    alloc: Global,
    terms: &Terms,
    condition: &Condition,
    variables: &[TermId],
    choice: &Choice,
) -> Result<Vec<usize>, AllocError> {
    if choice.all_facts {
        all_places(alloc, condition)
    } else {
        near(alloc, terms, condition, choice.first, variables)
    }
}

// Variables for applications, and what all terms become with them.
#[derive(Drop)]
struct Abstraction {
    variables: Vec<TermId>,
    images: Images,
}

// Puts variables in the place of applications, if there is room.
fn put_in(
    alloc: Global,
    copied: &mut Copied,
    list: &[TermId],
) -> Result<Option<Abstraction>, AllocError>
    ensures { CopyGrows copied.old copied.new }
{
    let Some(variables) = fitting(variables_for(alloc, &mut copied.terms, list))? else {
        return Ok(None);
    };
    let found = exchanged(alloc, &mut copied.terms, list, variables.as_slice());
    let Some(images) = fitting(found)? else {
        return Ok(None);
    };
    Ok(Some(Abstraction { variables, images }))
}

// The applications for which variables stand in a stage where these stand for themselves.
fn standing_for(alloc: Global, copied: &Copied, apart: &[TermId]) -> Result<Vec<TermId>, AllocError>
    requires given { AllBelow (length copied.now.terms.nodes) copied.now.condition.given }
    requires goal { copied.now.condition.goal.0 < length copied.now.terms.nodes }
{
    let all = applications(alloc, &copied.terms, &copied.condition)?;
    let chosen = numbers_and_truths(alloc, &copied.terms, all.as_slice())?;
    without(alloc, chosen.as_slice(), apart)
}

// A stage of a condition; none where one cannot be made.
fn staged(
    alloc: Global,
    terms: &Terms,
    condition: &Condition,
    choice: &Choice,
) -> Result<Option<Stage>, AllocError>
    requires given { AllBelow (length terms.now.nodes) condition.now.given }
    requires goal { condition.now.goal.0 < length terms.now.nodes }
    ensures { IfOk result (λ o. IfSome o (IsStageOf terms.now condition.now)) }
{
    let Some(mut copied) = own_copy(alloc, terms, condition)? else {
        return Ok(None);
    };
    let applications = standing_for(alloc, &copied, choice.apart.as_slice())?;
    let Some(made) = put_in(alloc, &mut copied, applications.as_slice())? else {
        return Ok(None);
    };
    let whole = abstracted(alloc, &copied.condition, &made.images)?;
    let variables = made.variables;
    let places = places_of(alloc, &copied.terms, &whole, variables.as_slice(), choice)?;
    let abstracted = with_these(alloc, &whole, places.as_slice())?;
    if !is_asked(&copied.terms, &abstracted) {
        return Ok(None);
    }
    Ok(Some(Stage {
        terms: copied.terms,
        condition: copied.condition,
        abstracted,
        places,
        applications,
        variables,
    }))
}

/// Limits within others, with so many splits at most.
pub(crate) fn limits_of(limits: &Limits, most: u64) -> Limits {
    let splits = limits.splits().min(most);
    Limits::new(splits, limits.instances(), limits.pivots()).with_terms(limits.terms())
}

/// All terms of an arena.
pub(crate) fn all_terms(alloc: Global, terms: &Terms) -> Result<Vec<TermId>, AllocError> {
    let mut list = Vec::new(alloc);
    for number in 0..terms.len() {
        list.push(TermId(number))?;
    }
    Ok(list)
}

// What all terms of another arena become in that of a stage: its variables become the applications for which they stand.
fn becoming(alloc: Global, from: &Terms, stage: &mut Stage) -> Result<Option<Return>, AllocError>
    requires shapes { stage.old.terms.shapes ≡ from.now.shapes }
    requires decls { stage.old.terms.decls ≡ from.now.decls }
    ensures { StageGrows stage.old stage.new }
{
    let list = all_terms(alloc, from)?;
    if !are_there(from, list.as_slice()) {
        return Ok(None);
    }
    let order = subterms(alloc, from, list.as_slice())?;
    let Some(copies) = fitting(copy_all(alloc, from, &order, &mut stage.terms))? else {
        return Ok(None);
    };
    let found = exchanged(
        alloc,
        &mut stage.terms,
        stage.variables.as_slice(),
        stage.applications.as_slice(),
    );
    let Some(images) = fitting(found)? else {
        return Ok(None);
    };
    let terms = images.all(alloc, copies.as_slice())?;
    let places = stage.places.as_slice().to_vec(alloc)?;
    Ok(Some(Return::new(Images::new(terms), places)))
}

// The proof of the condition of a stage that these nodes are, if the checker accepts them.
fn tested(
    alloc: Global,
    stage: &mut Stage,
    nodes: Vec<ProofNode>,
) -> Result<Option<Proof>, AllocError>
    ensures grows { StageGrows stage.old stage.new }
    ensures proof { IfOk result (λ o. IfSome o (IsProof stage.old.terms stage.old.condition)) }
{
    proof_of(alloc, &mut stage.terms, &stage.condition, nodes)
}

// The condition is proved by the proof of what stands for it, if the checker accepts it with what its terms become.
fn proved(alloc: Global, stage: Stage, from: &Terms, proof: &Proof) -> Result<Outcome, AllocError>
    requires shapes { stage.terms.shapes ≡ from.now.shapes }
    requires decls { stage.terms.decls ≡ from.now.decls }
    ensures { (a : Arena) (c : Condition) (limits : Limits) → IsOwn a c stage.terms stage.condition → IfOk result (IsOutcomeOf a c limits) }
{
    let mut stage = stage;
    let Some(back) = becoming(alloc, from, &mut stage)? else {
        return Ok(Outcome::Nothing);
    };
    let nodes = back.nodes(alloc, proof.nodes())?;
    let found = tested(alloc, &mut stage, nodes)?;
    match found {
        Some(proof) => Ok(Outcome::Decided(Decided {
            terms: stage.terms,
            condition: stage.condition,
            verdict: Verdict::Proved(proof),
        })),
        None => Ok(Outcome::Nothing),
    }
}

/// The numbers of a table, for what its terms become, each cut to a whole one: what a table says of differences is as true of these.
pub(crate) fn numbers_of(
    alloc: Global,
    terms: &Terms,
    table: &Table,
    back: &Return,
) -> Result<Option<Numbers>, AllocError> {
    let mut numbers = Numbers::none(alloc, terms.len())?;
    for pair in table.values.as_slice() {
        let Some(whole) = whole_part(pair.1) else {
            return Ok(None);
        };
        numbers.put(back.at(pair.0), Some(whole));
    }
    Ok(Some(numbers))
}

// The condition is false in a table near to that of what stands for it, if this is seen of it there: in an arena that has nothing but its terms, whose
// ids are those that they have in the stage.
fn unproved(alloc: Global, stage: Stage, from: &Terms, table: &Table) -> Result<Outcome, AllocError>
    requires shapes { stage.terms.shapes ≡ from.now.shapes }
    requires decls { stage.terms.decls ≡ from.now.decls }
    requires given { AllBelow (length stage.terms.nodes) stage.condition.given }
    requires goal { stage.condition.goal.0 < length stage.terms.nodes }
    ensures { (a : Arena) (c : Condition) (limits : Limits) → IsOwn a c stage.terms stage.condition → IfOk result (IsOutcomeOf a c limits) }
{
    let mut stage = stage;
    let Some(back) = becoming(alloc, from, &mut stage)? else {
        return Ok(Outcome::Nothing);
    };
    let Some(numbers) = numbers_of(alloc, &stage.terms, table, &back)? else {
        return Ok(Outcome::Nothing);
    };
    let Some(own) = own_copy(alloc, &stage.terms, &stage.condition)? else {
        return Ok(Outcome::Nothing);
    };
    match tried_near(alloc, &own.terms, &own.condition, numbers)? {
        Trial::Shown(found) => Ok(Outcome::Decided(Decided {
            terms: own.terms,
            condition: own.condition,
            verdict: Verdict::Unproved(found),
        })),
        Trial::Apart(list) => {
            let apart = among(alloc, list.as_slice(), stage.applications.as_slice())?;
            Ok(Outcome::Apart(apart))
        }
        Trial::NotShown => Ok(Outcome::NotShown),
    }
}

/// What the search decides of the condition of a stage, with a short proof, so that less has to be tested of the condition itself.
pub(crate) fn searched(
    alloc: Global,
    terms: &Terms,
    condition: &Condition,
    limits: &Limits,
    focus: usize,
) -> Result<Decided, AllocError>
    requires given { AllBelow (length terms.now.nodes) condition.now.given }
    requires goal { condition.now.goal.0 < length terms.now.nodes }
    requires formulas { AreFormulas terms.now.shapes terms.now.decls (formulas_of (question terms.now condition.now).sequent) }
    ensures decided { IfOk result (IsDecided terms.now condition.now limits.now) }
{
    let found = decide_near(alloc, terms, condition, limits, focus)?;
    Ok(with_shorter_proof(alloc, found)?)
}

// What comes of a stage.
fn try_stage(
    alloc: Global,
    terms: &Terms,
    condition: &Condition,
    limits: &Limits,
    choice: &Choice,
) -> Result<Outcome, AllocError>
    requires given { AllBelow (length terms.now.nodes) condition.now.given }
    requires goal { condition.now.goal.0 < length terms.now.nodes }
    ensures { IfOk result (IsOutcomeOf terms.now condition.now limits.now) }
{
    let Some(stage) = staged(alloc, terms, condition, choice)? else {
        return Ok(Outcome::Nothing);
    };
    let few = limits_of(limits, MOST_SPLITS);
    let Decided {
        terms: from,
        condition: _,
        verdict,
    } = searched(alloc, &stage.terms, &stage.abstracted, &few, choice.first)?;
    match verdict {
        Verdict::Proved(proof) => proved(alloc, stage, &from, &proof),
        Verdict::Unproved(found) => unproved(alloc, stage, &from, &found.table),
        _ => Ok(Outcome::Nothing),
    }
}

// Whether a search over all pair equations of a condition is dear.
fn is_dear(alloc: Global, terms: &Terms, condition: &Condition) -> Result<bool, AllocError>
    requires given { AllBelow (length terms.now.nodes) condition.now.given }
    requires goal { condition.now.goal.0 < length terms.now.nodes }
{
    let list = applications(alloc, terms, condition)?;
    Ok(are_many(terms, list.as_slice()))
}

// Whether a stage may take all of its facts, if there are any.
fn has_few_facts(choice: &Choice) -> bool {
    choice.facts != 0 && choice.facts <= MOST_FACTS
}

// The next choice behind one that came to nothing but this; none where there is none.
fn next_choice(
    alloc: Global,
    choice: Choice,
    outcome: Outcome,
) -> Result<Option<Choice>, AllocError> {
    match outcome {
        Outcome::Apart(list) => {
            if list.is_empty() {
                return Ok(None);
            }
            let mut apart = choice.apart;
            apart.extend_from_slice(list.as_slice())?;
            Ok(Some(Choice {
                apart,
                first: choice.first,
                facts: choice.facts,
                all_facts: choice.all_facts,
            }))
        }
        Outcome::NotShown if !choice.all_facts && has_few_facts(&choice) => Ok(Some(Choice {
            apart: choice.apart,
            first: choice.first,
            facts: choice.facts,
            all_facts: true,
        })),
        _ => Ok(None),
    }
}

// How many stages there are at most with so many facts.
fn stages_at_most(facts: usize) -> usize {
    if facts == 0 {
        MOST_STAGES_ALONE
    } else {
        MOST_STAGES
    }
}

// What is decided of a condition in stages, if anything is.
fn found(
    alloc: Global,
    terms: &Terms,
    condition: &Condition,
    limits: &Limits,
    focus: usize,
) -> Result<Option<Decided>, AllocError>
    requires given { AllBelow (length terms.now.nodes) condition.now.given }
    requires goal { condition.now.goal.0 < length terms.now.nodes }
    ensures { IfOk result (λ o. IfSome o (IsDecided terms.now condition.now limits.now)) }
{
    let facts = condition.given.len().saturating_sub(focus);
    if facts > FACTS_AT_ALL {
        return Ok(None);
    }
    if !is_dear(alloc, terms, condition)? {
        return Ok(None);
    }
    let mut choice = Choice {
        apart: Vec::new(alloc),
        first: focus,
        facts,
        all_facts: false,
    };
    for _ in 0..stages_at_most(facts) {
        match try_stage(alloc, terms, condition, limits, &choice)? {
            Outcome::Decided(decided) => return Ok(Some(decided)),
            other => match next_choice(alloc, choice, other)? {
                Some(next) => choice = next,
                None => return Ok(None),
            },
        }
    }
    Ok(None)
}

/// What `decide_near` decides of a condition: first by parts where it has such; then, where it has many applications of one head, in stages, with a part of
/// their pair equations first.
pub(crate) fn decide_in_stages(
    alloc: Global,
    terms: &Terms,
    condition: &Condition,
    limits: &Limits,
    focus: usize,
) -> Result<Decided, AllocError>
    requires given { AllBelow (length terms.now.nodes) condition.now.given }
    requires goal { condition.now.goal.0 < length terms.now.nodes }
    requires formulas { AreFormulas terms.now.shapes terms.now.decls (formulas_of (question terms.now condition.now).sequent) }
    ensures decided { IfOk result (IsDecided terms.now condition.now limits.now) }
{
    if let Some(decided) = decide_by_parts(alloc, terms, condition, limits)? {
        return Ok(decided);
    }
    match found(alloc, terms, condition, limits, focus)? {
        Some(decided) => Ok(decided),
        None => decide_near(alloc, terms, condition, limits, focus),
    }
}
