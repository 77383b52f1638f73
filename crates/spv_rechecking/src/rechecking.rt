// The recheck of a condition.

ghost use Rattle.std.specs.Prelude.{◌≡◌, ◌<◌, ◌≤◌, ◌^◌, ◌&&◌, [], true, ℕ, Some, Err, IfOk, OnOk, length, map, option_copied};
ghost use Rattle.spv_logic.specs.Terms.{term_eq};
ghost use Rattle.spv_term.specs.Arena.{AllBelow, Extends, sequent, tree, trees_of};
ghost use Rattle.spv_models.specs.leaf_models.Laws.{AreFormulas};
ghost use Rattle.spv_models.specs.leaf_models.Tables.{formulas_of};
ghost use Rattle.spv_proof_rules.specs.Stand.{question, question_under, NodesIn};
ghost use Rattle.spv_proof_rules.specs.Outcomes.{outcome};
ghost use Rattle.spv_verdicts.specs.Verdicts.{most_terms};
ghost use Rattle.spv_verdicts.specs.answers.Views.{VerdictIn, verdict_in};
ghost use Rattle.spv_rules.specs.RuleSets.{rules_in};
ghost use Rattle.std.specs.List.{filter};
ghost use Rattle.spv_proof.specs.checker.Ends.{ConditionIn};
ghost use Rattle.spv_search_terms.specs.condition_copy.Copies.{IsCopy, all_terms};
ghost use Rattle.spv_verdicts.specs.declared.answers.verdicts.Limit.TheVariants as limit;
ghost use Rattle.spv_verdicts.specs.declared.answers.verdicts.Verdict.TheVariants as verdict;
ghost use Rattle.spv_listing_values.specs.declared.data.Header.{Header};
ghost use Rattle.spv_listing_values.specs.Places.{AreBefore, trees};
ghost use Rattle.spv_rechecking.specs.written_terms.Standing.{is_leaf};
ghost use Rattle.spv_listing_values.specs.Entries.{IsEntry, written_claim};
ghost use Rattle.spv_rechecking.specs.Rechecked as spec;
ghost use Rattle.spv_rechecking.specs.Rechecked.{Recheck, IsRechecked};
ghost use Rattle.spv_rechecking.specs.Made.{vocabulary_in, AreHeads, AreImages};
ghost use Rattle.spv_rechecking.specs.Converted.{term_at};
ghost use Rattle.spv_rechecking.specs.Asked.{verdict_after, IsJudged, IsAsked, IsFound};

use crate::comparing::{same_claim, same_header};
use crate::converting::proof_of;
use crate::making::{id_at, ids_at, make_all};
use crate::written_terms::{Leaves, heads_of, leaves_of};
use spv_atoms::Proof;
use spv_listing_values::Entry;
use spv_listing_values::data::{self, Claim};
use spv_listing_values::texts::{Text, Texts};
use spv_logic::list::List;
use spv_logic::names::{Names, Symbol};
use spv_proof::checker::{CheckStop, check_under};
use spv_rules::Rules;
use spv_search_terms::condition_copy::{Copied, copy_condition};
use spv_term::{Condition, Head, Kind, TermFault, TermId, Terms};
use spv_verdicts::answers::{Decided, Limit, Verdict, Wide};
use std::alloc::{AllocError, Global};

// The nodes of the proof that a listing says, of which there are none where it says no proof.
fn proof_in(verdict: &data::Verdict<Text>) -> &[data::ProofNode<Text>]
    ensures { result.now ≡ spec.proof_of verdict.now }
{
    match verdict {
        data::Verdict::Proved(nodes) => nodes.as_slice(),
        _ => &[],
    }
}

// Whether a listing has a proof.
fn has_proof(verdict: &data::Verdict<Text>) -> bool
    ensures { result ≡ spec.has_node (spec.proof_of verdict.now) }
{
    match proof_in(verdict) {
        [] => false,
        [_, ..] => true,
    }
}

// Whether a listing has a proof of what has this header.
fn is_about(routine: &[u8], kind: Kind, line: u32, claim: &Claim<Text>) -> bool
    ensures { result ≡ spec.is_about (record { routine = routine.now; kind = kind; line = line }) claim.now }
{
    same_header(&claim.header, routine, kind, line) && has_proof(&claim.verdict)
}

// That there would be more terms than so many.
fn too_many(alloc: Global, most: u32) -> Verdict
    ensures { result ≡ verdict.GaveUp [] (limit.Terms most) }
{
    Verdict::GaveUp(List::new(alloc), Limit::Terms(u64::from(most)))
}

// What a check comes to that was stopped.
fn stopped(alloc: Global, most: u32, proof: Proof, stop: &CheckStop) -> Result<Verdict, AllocError>
    ensures { IfOk result (λ v. Some v ≡ verdict_after most proof (Err stop.now)) }
{
    match stop {
        CheckStop::Wide(op, left, right) => Ok(Verdict::GaveUp(
            List::new(alloc),
            Limit::Number(Wide::Sum(proof, *op, *left, *right)),
        )),
        CheckStop::Form(t) => Ok(Verdict::GaveUp(List::new(alloc), Limit::Number(Wide::Form(*t)))),
        CheckStop::Size => Ok(too_many(alloc, most)),
        CheckStop::Memory => Err(AllocError),
    }
}

// What a check comes to.
fn verdict_of(
    alloc: Global,
    most: u32,
    proof: Proof,
    outcome: Result<bool, CheckStop>,
) -> Result<Verdict, AllocError>
    ensures { IfOk result (λ v. Some v ≡ verdict_after most proof outcome) }
{
    match outcome {
        Ok(true) => Ok(Verdict::Proved(proof)),
        Ok(false) => Ok(Verdict::NotAccepted),
        Err(stop) => stopped(alloc, most, proof, &stop),
    }
}

// Whether the hypotheses and the goal of a listing, whose texts have these ids, are those of a condition.
fn is_same(
    alloc: Global,
    terms: &Terms,
    condition: &Condition,
    claim: &Claim<Text>,
    images: &[TermId],
) -> Result<bool, AllocError>
    requires given { AllBelow (length terms.now.nodes) condition.now.given }
    requires goal { condition.now.goal.0 < length terms.now.nodes }
    requires images { AllBelow (length terms.now.nodes) images.now }
    requires placed_given { AreBefore (length images.now) claim.now.given }
    requires placed_goal { claim.now.goal.0 < length images.now }
    ensures { IfOk result (λ b. b ≡ (spec.terms_eq (map (term_at terms.now images.now) claim.now.given) (map (tree terms.now) condition.now.given)
        && term_eq (term_at terms.now images.now claim.now.goal) (tree terms.now condition.now.goal))) }
{
    let places = claim.given.as_slice();
    let ids = ids_at(alloc, images, places)?;
    let goal = id_at(images, claim.goal);
    let own = condition.given.as_slice();
    Ok(same_claim(terms, ids.as_slice(), goal, own, condition.goal))
}

// The verdict of the check of a proof.
fn check_proof(
    alloc: Global,
    terms: &mut Terms,
    condition: &Condition,
    rules: &Rules,
    proof: Proof,
) -> Result<Verdict, AllocError>
    requires condition { ConditionIn terms.old condition.now }
    requires shapes { rules.now.arena.shapes ≡ terms.old.shapes }
    requires decls { rules.now.arena.decls ≡ terms.old.decls }
    requires proof { NodesIn terms.old proof }
    ensures terms_in { IfOk result (VerdictIn terms.new) }
    ensures verdict { IfOk result (λ v. verdict_in terms.new v ≡ spec.verdict_by terms.old.most proof
        (outcome terms.old.most (question_under (rules_in rules.now) terms.old condition.now) (trees_of terms.old.nodes) proof).ending) }
    ensures grows { OnOk result (Extends terms.old terms.new) }
{
    let most = terms.most();
    let answer = check_under(alloc, terms, condition, rules, &proof);
    verdict_of(alloc, most, proof, answer)
}

// The verdict of a recheck, where the texts of the listing have these ids.
fn check_with(
    alloc: Global,
    terms: &mut Terms,
    condition: &Condition,
    names: &Names,
    titles: &[Option<Symbol>],
    rules: &Rules,
    leaves: &Leaves,
    texts: &Texts,
    claim: &Claim<Text>,
    images: &[TermId],
) -> Result<Verdict, AllocError>
    requires condition { ConditionIn terms.old condition.now }
    requires shapes { rules.now.arena.shapes ≡ terms.old.shapes }
    requires decls { rules.now.arena.decls ≡ terms.old.decls }
    requires entry { IsEntry texts.now claim.now }
    requires proof { spec.has_node (spec.proof_of claim.now.verdict) ≡ true }
    requires images { AreImages (vocabulary_in names.now titles.now leaves.now terms.old) terms.old (trees texts.now) images.now }
    ensures judged { IfOk result (IsJudged (record { names = names.now; titles = titles.now; rules = rules_in rules.now; most = terms.old.most })
        (vocabulary_in names.now titles.now leaves.now terms.old) terms.old condition.now (written_claim texts.now claim.now) terms.new) }
    ensures grows { OnOk result (Extends terms.old terms.new) }
{
    let _ = titles;
    let _ = leaves;
    let _ = texts;
    let same = is_same(alloc, terms, condition, claim, images)?;
    if !same {
        return Ok(Verdict::NotAccepted);
    }
    let said = proof_in(&claim.verdict);
    let made = proof_of(alloc, terms, names, images, said)?;
    match made {
        Some(proof) => check_proof(alloc, terms, condition, rules, proof),
        None => Ok(Verdict::NotAccepted),
    }
}

// The verdict of a recheck over an arena that has the condition, in which the texts of the listing have these heads.
fn make_and_check(
    alloc: Global,
    terms: &mut Terms,
    condition: &Condition,
    names: &Names,
    titles: &[Option<Symbol>],
    rules: &Rules,
    leaves: &Leaves,
    texts: &Texts,
    claim: &Claim<Text>,
    heads: &[Head],
) -> Result<Verdict, AllocError>
    requires condition { ConditionIn terms.old condition.now }
    requires shapes { rules.now.arena.shapes ≡ terms.old.shapes }
    requires decls { rules.now.arena.decls ≡ terms.old.decls }
    requires terms { trees_of terms.old.nodes ≡ all_terms (sequent terms.old condition.now) }
    requires entry { IsEntry texts.now claim.now }
    requires proof { spec.has_node (spec.proof_of claim.now.verdict) ≡ true }
    requires leaves { leaves.now.heads.items ≡ filter is_leaf (map (λ n. n.head) terms.old.nodes) }
    requires heads { AreHeads (vocabulary_in names.now titles.now leaves.now terms.old) (trees texts.now) heads.now }
    ensures found { IfOk result (λ v. (header : Header) → spec.header_eq claim.now.header header ≡ true
        → IsFound (record { names = names.now; titles = titles.now; rules = rules_in rules.now; most = terms.old.most }) header terms.old condition.now (Some (written_claim texts.now claim.now)) terms.new v) }
    ensures grows { OnOk result (Extends terms.old terms.new) }
{
    match make_all(alloc, names, titles, leaves, texts, heads, terms) {
        Ok(images) => {
            terms.law_arena();
            check_with(
                alloc,
                terms,
                condition,
                names,
                titles,
                rules,
                leaves,
                texts,
                claim,
                images.as_slice(),
            )
        }
        Err(TermFault::Size) => Ok(too_many(alloc, terms.most())),
        Err(TermFault::Memory) => Err(AllocError),
    }
}

// The verdict of a recheck over an arena that has the condition, and is to have no more terms where there is no room.
fn recheck_in(
    alloc: Global,
    terms: &mut Terms,
    condition: &Condition,
    names: &Names,
    titles: &[Option<Symbol>],
    routine: &[u8],
    most: u32,
    room: bool,
    rules: &Rules,
    entry: &Entry,
) -> Result<Verdict, AllocError>
    requires asked { IsAsked most room terms.old condition.now }
    requires shapes { rules.now.arena.shapes ≡ terms.old.shapes }
    requires decls { rules.now.arena.decls ≡ terms.old.decls }
    requires few { length titles.now ≤ 2 ^ 32 }
    ensures found { IfOk result (IsFound (record { names = names.now; titles = titles.now; rules = rules_in rules.now; most = most })
        (record { routine = routine.now; kind = condition.now.origin.kind; line = condition.now.origin.line }) terms.old condition.now (Some entry.now) terms.new) }
    ensures grows { OnOk result (Extends terms.old terms.new) }
{
    let (texts, claim) = entry.parts();
    if !is_about(routine, condition.origin.kind, condition.origin.line, claim) {
        return Ok(Verdict::NotAccepted);
    }
    let leaves = leaves_of(alloc, names, titles, terms)?;
    let heads = heads_of(
        alloc,
        names,
        titles,
        &leaves,
        terms.shapes().as_slice(),
        terms.decls(),
        texts,
    )?;
    let Some(heads) = heads else {
        return Ok(Verdict::NotAccepted);
    };
    if !room {
        return Ok(too_many(alloc, most));
    }
    make_and_check(
        alloc,
        terms,
        condition,
        names,
        titles,
        rules,
        &leaves,
        texts,
        claim,
        heads.as_slice(),
    )
}

// What was decided of a condition that was copied.
fn decided(
    alloc: Global,
    from: &Terms,
    whole: &Condition,
    copied: Copied,
    names: &Names,
    titles: &[Option<Symbol>],
    routine: &[u8],
    most: u32,
    room: bool,
    rules: &Rules,
    entry: Option<&Entry>,
) -> Result<Decided, AllocError>
    requires copied { IsCopy from.now whole.now copied.terms.most copied }
    requires asked { IsAsked most room copied.terms copied.condition }
    requires shapes { rules.now.arena.shapes ≡ copied.terms.shapes }
    requires decls { rules.now.arena.decls ≡ copied.terms.decls }
    requires few { length titles.now ≤ 2 ^ 32 }
    ensures { IfOk result (IsRechecked (record { names = names.now; titles = titles.now; rules = rules_in rules.now; most = most })
        (record { routine = routine.now; kind = whole.now.origin.kind; line = whole.now.origin.line }) from.now whole.now (option_copied entry.entry)) }
{
    let _ = from;
    let _ = whole;
    let Copied {
        mut terms,
        condition,
        base: _,
    } = copied;
    match entry {
        Some(entry) => {
            let verdict = recheck_in(
                alloc, &mut terms, &condition, names, titles, routine, most, room, rules, entry,
            )?;
            Ok(Decided {
                terms,
                condition,
                verdict,
            })
        }
        None => Ok(Decided {
            terms,
            condition,
            verdict: Verdict::NotAccepted,
        }),
    }
}

// The recheck of a condition, for at most so many terms.
fn recheck_within(
    alloc: Global,
    terms: &Terms,
    condition: &Condition,
    names: &Names,
    titles: &[Option<Symbol>],
    routine: &[u8],
    most: u32,
    rules: &Rules,
    entry: Option<&Entry>,
) -> Result<Decided, AllocError>
    requires given { AllBelow (length terms.now.nodes) condition.now.given }
    requires goal { condition.now.goal.0 < length terms.now.nodes }
    requires formulas { AreFormulas terms.now.shapes terms.now.decls (formulas_of (question terms.now condition.now).sequent) }
    requires shapes { rules.now.arena.shapes ≡ terms.now.shapes }
    requires decls { rules.now.arena.decls ≡ terms.now.decls }
    requires few { length titles.now ≤ 2 ^ 32 }
    ensures { IfOk result (IsRechecked (record { names = names.now; titles = titles.now; rules = rules_in rules.now; most = most })
        (record { routine = routine.now; kind = condition.now.origin.kind; line = condition.now.origin.line }) terms.now condition.now (option_copied entry.entry)) }
{
    match copy_condition(alloc, terms, condition, most) {
        Ok(copied) => {
            copied.terms.law_arena();
            decided(
                alloc, terms, condition, copied, names, titles, routine, most, true, rules, entry,
            )
        }
        Err(TermFault::Size) => match copy_condition(alloc, terms, condition, u32::MAX) {
            Ok(copied) => {
                copied.terms.law_arena();
                decided(
                    alloc, terms, condition, copied, names, titles, routine, most, false, rules,
                    entry,
                )
            }
            Err(_) => Err(AllocError),
        },
        Err(TermFault::Memory) => Err(AllocError),
    }
}

/// Checks the proof of a condition that a listing says, where it says one, under rules; the condition's routine is written so. The
/// answer has the condition in an arena of its own, in which it claims the same, and what the check comes to.
pub fn recheck(
    alloc: Global,
    terms: &Terms,
    condition: &Condition,
    names: &Names,
    titles: &[Option<Symbol>],
    routine: &[u8],
    rules: &Rules,
    entry: Option<&Entry>,
) -> Result<Decided, AllocError>
    requires given { AllBelow (length terms.now.nodes) condition.now.given }
    requires goal { condition.now.goal.0 < length terms.now.nodes }
    requires formulas { AreFormulas terms.now.shapes terms.now.decls (formulas_of (question terms.now condition.now).sequent) }
    requires shapes { rules.now.arena.shapes ≡ terms.now.shapes }
    requires decls { rules.now.arena.decls ≡ terms.now.decls }
    ensures rechecked { IfOk result (IsRechecked (record { names = names.now; titles = titles.now; rules = rules_in rules.now; most = most_terms })
        (record { routine = routine.now; kind = condition.now.origin.kind; line = condition.now.origin.line }) terms.now condition.now (option_copied entry.entry)) }
{
    if titles.len() > 4294967296 {
        return Err(AllocError);
    }
    recheck_within(
        alloc, terms, condition, names, titles, routine, 1_000_000, rules, entry,
    )
}
