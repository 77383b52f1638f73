//! What cited numbers stand for in a sum.

ghost use Rattle.std.specs.Prelude.{◌≡◌, ◌<◌, ℕ, length, map, Some};
ghost use Rattle.std.specs.Option.{option_map, ForSome};
ghost use Rattle.spv_frac.specs.rational.Rational.{number};
ghost use Rattle.spv_logic.specs.Terms.{Term};
ghost use Rattle.spv_term.specs.Arena.{Arena, AllBelow, tree, trees, trees_of, IsArena};
ghost use Rattle.spv_proof_rules.specs.Sums as sums;
ghost use Rattle.spv_proof_rules.specs.Stops.{fact_source};
ghost use Rattle.spv_proof_steps.specs.Candidates.{pair_of, PairIn};
ghost use Rattle.spv_proof.specs.sums.Readings as spec;
ghost use Rattle.spv_proof.specs.sums.Readings.{number_in, source_in, halt_in, reading_in, true_source, false_source, NamedIn, CitedIn, ClaimIn, source_of};
ghost use Rattle.spv_proof.specs.sums.Added.{fault_halt, FaultIn};

use crate::sums::fault::SumFault;
use crate::sums::numbers::is_number;
use spv_frac::{Frac, law_frac};
use spv_proof_steps::candidates::negated;
use spv_proof_steps::fact;
use spv_term::{Head, TermId, Terms};

/// What a sum is to show: that one number is at most another.
#[derive(Clone, Copy, Debug)]
pub struct Claim {
    pub left: TermId,
    pub right: TermId,
}

/// What a cited number stands for: that left - right, or 1 more, is at most 0, or that it is 0.
#[derive(Clone, Copy, Debug)]
pub(crate) struct Cited {
    pub(crate) left: TermId,
    pub(crate) right: TermId,
    /// Whether it is 1 more.
    pub(crate) is_above: bool,
    /// Whether it is 0, and not only at most 0.
    pub(crate) is_equal: bool,
    /// The relation of which this is read; none for what the step is to show.
    pub(crate) relation: Option<TermId>,
}

impl Cited {
    // What is read of a relation.
    fn new(left: TermId, right: TermId, is_above: bool, is_equal: bool, relation: TermId) -> Cited
        ensures { result ≡ record { left = left; right = right; is_above = is_above; is_equal = is_equal; relation = Some relation } }
    {
        Cited {
            left,
            right,
            is_above,
            is_equal,
            relation: Some(relation),
        }
    }

    // Why the sum ends where the form does not fit.
    pub(crate) fn fault(self) -> SumFault
        ensures halt { (a : Arena) → (most : ℕ) → (shown : Term)
            → fault_halt a most shown result ≡ Some (halt_in a most shown self.relation) }
        ensures in_range { (a : Arena) → NamedIn a self.relation → FaultIn a result }
    {
        match self.relation {
            Some(relation) => SumFault::Form(relation),
            None => SumFault::Shown,
        }
    }

    // Whether it may be multiplied by a number: what is 0 by every one, else by one that is not negative.
    pub(crate) fn may_multiply(self, m: Frac) -> bool
        ensures { (a : Arena) → result ≡ sums.may_multiply (number m) (reading_in a self) }
    {
        law_frac(&m);
        self.is_equal || m.num >= 0
    }
}

// The two terms of a list, where there are two and they are numbers.
fn number_pair(terms: &Terms, args: &[TermId]) -> Option<(TermId, TermId)>
    requires { AllBelow (length terms.now.nodes) args.now }
    ensures value { option_map (pair_of terms.now) result
        ≡ spec.number_pair (number_in terms.now) (sums.pair (trees terms.now args.now)) }
    ensures in_range { ForSome result (PairIn terms.now) }
{
    if args.len() != 2 {
        return None;
    }
    if is_number(terms, args[0]) && is_number(terms, args[1]) {
        Some((args[0], args[1]))
    } else {
        None
    }
}

// What a relation of numbers says where it is true.
fn read_true(terms: &Terms, relation: TermId) -> Option<Cited>
    requires { relation.0 < length terms.now.nodes }
    ensures value { (most : ℕ) → (shown : Term) → option_map (source_in terms.now most shown) result
        ≡ true_source (number_in terms.now) (trees_of terms.now.nodes) (tree terms.now relation) (sums.comparison (tree terms.now relation)) }
    ensures in_range { ForSome result (CitedIn terms.now) }
{
    terms.law_arena();
    let node = terms.node(relation);
    let Some((left, right)) = number_pair(terms, node.args.as_slice()) else {
        return None;
    };
    match node.head {
        Head::Eq => Some(Cited::new(left, right, false, true, relation)),
        Head::Lt => Some(Cited::new(left, right, true, false, relation)),
        Head::Le => Some(Cited::new(left, right, false, false, relation)),
        _ => None,
    }
}

// What a relation of numbers says where it is false.
fn read_false(terms: &Terms, relation: TermId) -> Option<Cited>
    requires { relation.0 < length terms.now.nodes }
    ensures value { (most : ℕ) → (shown : Term) → option_map (source_in terms.now most shown) result
        ≡ false_source (number_in terms.now) (trees_of terms.now.nodes) (tree terms.now relation) (sums.comparison (tree terms.now relation)) }
    ensures in_range { ForSome result (CitedIn terms.now) }
{
    terms.law_arena();
    let node = terms.node(relation);
    let Some((left, right)) = number_pair(terms, node.args.as_slice()) else {
        return None;
    };
    match node.head {
        Head::Lt => Some(Cited::new(right, left, false, false, relation)),
        Head::Le => Some(Cited::new(right, left, true, false, relation)),
        _ => None,
    }
}

// What a fact says: a relation of numbers, or the negation of one.
fn read(terms: &Terms, t: TermId) -> Option<Cited>
    requires { t.0 < length terms.now.nodes }
    ensures value { (most : ℕ) → (shown : Term) → option_map (source_in terms.now most shown) result
        ≡ fact_source (number_in terms.now) (trees_of terms.now.nodes) (Some (tree terms.now t)) }
    ensures in_range { ForSome result (CitedIn terms.now) }
{
    match negated(terms, t) {
        Some(relation) => read_false(terms, relation),
        None => read_true(terms, t),
    }
}

// What a number stands for in a sum that is to show a claim: a fact, or for 0 that the claim is false.
pub(crate) fn find_cited(
    terms: &Terms,
    facts: &[TermId],
    claim: Claim,
    number: u32,
) -> Option<Cited>
    requires facts { AllBelow (length terms.now.nodes) facts.now }
    requires claim { ClaimIn terms.now claim }
    ensures value { (most : ℕ) → (shown : Term) → option_map (source_in terms.now most shown) result
        ≡ source_of terms.now facts.now claim most shown number }
    ensures in_range { ForSome result (CitedIn terms.now) }
{
    if number == 0 {
        return Some(Cited {
            left: claim.right,
            right: claim.left,
            is_above: true,
            is_equal: false,
            relation: None,
        });
    }
    match fact(facts, number) {
        Some(t) => read(terms, t),
        None => None,
    }
}
