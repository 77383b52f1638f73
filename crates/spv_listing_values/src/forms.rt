// Whether what was read has the forms of a listing.

ghost use Rattle.std.specs.Prelude.{◌≡◌, ◌<◌, ◌≤◌, ◌^◌, ℕ, List, [], ◌∷◌, All, length, map, not, option_map, true};
ghost use Rattle.std.specs.List.{list_all};
ghost use Rattle.spv_listing_values.specs.Written.{Written};
ghost use Rattle.spv_listing_values.specs.Forms as spec;
ghost use Rattle.spv_listing_values.specs.Mapped.{step_at, step_terms, split_at, split_terms, node_at, instance_at, row_at, limit_at, limit_terms, verdict_at, claim_terms};
ghost use Rattle.spv_listing_values.specs.Places.{tree, flats_of};
ghost use Rattle.spv_listing_values.specs.Waiting.{AreIn, NodeIn, VerdictIn, ClaimIn};
ghost use Rattle.spv_listing_values.specs.Entries.{has_form, HaveForms, written_claim};

use crate::data::{Claim, Header, Instance, Limit, ProofNode, Split, Step, Verdict};
use crate::fitting::{law_byte, law_fraction, law_long, law_multiples, law_short, law_shorts};
use crate::lines::is_equation;
use crate::nodes::count_cases;
use crate::spelling::{is_head, is_name, is_word};
use crate::texts::{HeadText, Text, Texts};
use crate::words::is_among;
use spv_frac::Frac;
use spv_logic::list::List;

// Whether each head may stand over its arguments.
fn have_forms(texts: &Texts) -> bool
    requires { length texts.now ≤ 2 ^ 32 }
    ensures { result ≡ list_all has_form texts.now }
{
    for k in 0..texts.len() {
        let t = Text(k as u32);
        if !is_head(texts.head(t), texts.args(t).len()) {
            return false;
        }
    }
    true
}

// ---- steps

static RELATIONS: [&[u8]; 2] = [b"=", b"<="];

fn is_relation(texts: &Texts, t: Text) -> bool
    requires { t.0 < length texts.now }
    ensures { result ≡ spec.is_relation (tree texts.now t) }
{
    texts.law_texts();
    match texts.head(t) {
        HeadText::Alone(_) => false,
        HeadText::Applied(word, _) => is_among(&RELATIONS, word),
    }
}

fn is_field(wanted: bool, field: &Option<List<u8>>) -> bool
    ensures { result ≡ spec.is_field wanted field.now }
{
    match field {
        None => !wanted,
        Some(name) => wanted && is_word(name.as_slice()) && is_name(name.as_slice()),
    }
}

// Only an equation may have multiples for the other direction.
fn are_sums(equation: bool, multiples: &[(Frac, u32)]) -> bool
    ensures { result ≡ spec.are_sums equation multiples.now }
{
    law_multiples(multiples);
    equation || multiples.len() == 0
}

fn is_second(fact: &Option<u32>) -> bool
    ensures { result ≡ spec.is_fact fact.now }
{
    if let Some(number) = fact {
        law_short(*number);
    }
    true
}

// Whether a step has its form, where the terms have theirs.
fn is_step(texts: &Texts, step: &Step<Text>) -> bool
    requires terms { HaveForms texts.now }
    requires in_range { AreIn texts.now (step_terms step.now) }
    ensures { result ≡ spec.is_step (step_at (tree texts.now) step.now) }
{
    match step {
        Step::Given(k) => {
            law_short(*k);
            true
        }
        Step::Refl(_) => true,
        Step::Symm(i) => {
            law_short(*i);
            true
        }
        Step::Trans(i, j) => {
            law_short(*i);
            law_short(*j);
            true
        }
        Step::Cong(_, _, facts) => {
            law_shorts(facts.as_slice());
            true
        }
        Step::Linear(r, first, second) => {
            law_multiples(first.as_slice());
            is_relation(texts, *r) && are_sums(is_equation(texts, *r), second.as_slice())
        }
        Step::Schema(kind, _, field) => {
            law_byte(*kind);
            is_field(*kind == 4, field)
        }
        Step::Rule(r, _) => {
            law_short(*r);
            true
        }
        Step::Eval(_, facts) => {
            law_shorts(facts.as_slice());
            true
        }
        Step::Contra(i, j) => {
            law_short(*i);
            is_second(j)
        }
    }
}

fn are_steps(texts: &Texts, steps: &[Step<Text>]) -> bool
    requires terms { HaveForms texts.now }
    requires in_range { All (λ s. AreIn texts.now (step_terms s)) steps.now }
    ensures { result ≡ list_all spec.is_step (map (step_at (tree texts.now)) steps.now) }
{
    for step in steps {
        if !is_step(texts, step) {
            return false;
        }
    }
    true
}

// ---- nodes

fn is_end(step: &Step<Text>) -> bool
    ensures { (f : Text → Written) → result ≡ spec.is_end (step_at f step.now) }
{
    matches!(step, Step::Contra(..))
}

fn have_no_end(steps: &[Step<Text>]) -> bool
    ensures { (f : Text → Written) → result ≡ list_all (λ p. not (spec.is_end p)) (map (step_at f) steps.now) }
{
    for step in steps {
        if is_end(step) {
            return false;
        }
    }
    true
}

fn ends_path(steps: &[Step<Text>]) -> bool
    ensures { (f : Text → Written) → result ≡ spec.ends_path (map (step_at f) steps.now) }
{
    match steps {
        [] => false,
        [front @ .., last] => have_no_end(front) && is_end(last),
    }
}

fn ends_rightly(texts: &Texts, steps: &[Step<Text>], split: &Option<Split<Text>>) -> bool
    requires terms { HaveForms texts.now }
    requires in_range { AreIn texts.now (split_terms split.now) }
    ensures { result ≡ spec.ends_rightly (map (step_at (tree texts.now)) steps.now) (option_map (split_at (tree texts.now)) split.now) }
{
    match split {
        None => ends_path(steps),
        Some(split) => {
            law_short(split.cases);
            split.cases > 0 && have_no_end(steps)
        }
    }
}

fn is_node(texts: &Texts, node: &ProofNode<Text>) -> bool
    requires terms { HaveForms texts.now }
    requires in_range { NodeIn texts.now node.now }
    ensures { result ≡ spec.is_node (node_at (tree texts.now) node.now) }
{
    are_steps(texts, node.steps.as_slice())
        && ends_rightly(texts, node.steps.as_slice(), &node.split)
}

fn are_nodes(texts: &Texts, nodes: &[ProofNode<Text>]) -> bool
    requires terms { HaveForms texts.now }
    requires in_range { All (λ n. NodeIn texts.now n) nodes.now }
    ensures { result ≡ list_all spec.is_node (map (node_at (tree texts.now)) nodes.now) }
{
    for node in nodes {
        if !is_node(texts, node) {
            return false;
        }
    }
    true
}

// Whether nodes are a tree: how many cases are still to come is counted.
fn is_tree(nodes: &[ProofNode<Text>]) -> bool
    ensures { (f : Text → Written) → result ≡ spec.is_tree (0 ∷ []) (map (node_at f) nodes.now) }
{
    let mut waiting = 1u128;
    for node in nodes {
        if waiting == 0 {
            return false;
        }
        waiting = waiting - 1 + u128::from(count_cases(&node.split));
    }
    waiting == 0
}

fn is_proof(texts: &Texts, nodes: &[ProofNode<Text>]) -> bool
    requires terms { HaveForms texts.now }
    requires in_range { All (λ n. NodeIn texts.now n) nodes.now }
    ensures { result ≡ spec.is_proof (map (node_at (tree texts.now)) nodes.now) }
{
    nodes.is_empty() || (are_nodes(texts, nodes) && is_tree(nodes))
}

// ---- verdicts

fn law_instances(texts: &Texts, instances: &[Instance<Text>])
    requires terms { HaveForms texts.now }
    requires in_range { All (λ i. All (λ t. t.0 < length texts.now) i.values) instances.now }
    ensures { list_all spec.is_instance (map (instance_at (tree texts.now)) instances.now) ≡ true }
{
    for instance in instances {
        law_short(instance.rule);
    }
}

fn law_rows(texts: &Texts, rows: &[(Text, Frac)])
    requires terms { HaveForms texts.now }
    requires in_range { All (λ row. row.0.0 < length texts.now) rows.now }
    ensures { list_all spec.is_row (map (row_at (tree texts.now)) rows.now) ≡ true }
{
    for row in rows {
        law_fraction(&row.1);
    }
}

fn law_limit(texts: &Texts, limit: &Limit<Text>)
    requires terms { HaveForms texts.now }
    requires in_range { AreIn texts.now (limit_terms limit.now) }
    ensures { spec.is_limit (limit_at (tree texts.now) limit.now) ≡ true }
{
    match limit {
        Limit::Splits(n) => law_long(*n),
        Limit::Instances(n) => law_long(*n),
        Limit::Pivots(n) => law_long(*n),
        Limit::Terms => {}
        Limit::Form(_) => {}
        Limit::Wide(_, left, right) => {
            law_fraction(left);
            law_fraction(right);
        }
    }
}

fn is_verdict(texts: &Texts, verdict: &Verdict<Text>) -> bool
    requires terms { HaveForms texts.now }
    requires in_range { VerdictIn texts.now verdict.now }
    ensures { result ≡ spec.is_verdict (verdict_at (tree texts.now) verdict.now) }
{
    match verdict {
        Verdict::Proved(nodes) => is_proof(texts, nodes.as_slice()),
        Verdict::Unproved(_, instances, rows) => {
            law_instances(texts, instances.as_slice());
            law_rows(texts, rows.as_slice());
            true
        }
        Verdict::GaveUp(limit) => {
            law_limit(texts, limit);
            true
        }
    }
}

fn is_header(header: &Header) -> bool
    ensures { result ≡ spec.is_header header.now }
{
    let routine = header.routine.as_slice();
    law_short(header.line);
    is_word(routine) && is_name(routine)
}

// Whether a condition and its verdict have the forms of a listing, where the terms are those that they name.
pub(crate) fn is_claim(texts: &Texts, claim: &Claim<Text>) -> bool
    requires few { length texts.now ≤ 2 ^ 32 }
    requires in_range { ClaimIn texts.now claim.now }
    requires terms { texts.now ≡ flats_of (claim_terms (written_claim texts.now claim.now)) }
    ensures { result ≡ spec.is_claim (written_claim texts.now claim.now) }
{
    texts.law_texts();
    if !have_forms(texts) {
        return false;
    }
    if !is_header(&claim.header) {
        return false;
    }
    is_verdict(texts, &claim.verdict)
}
