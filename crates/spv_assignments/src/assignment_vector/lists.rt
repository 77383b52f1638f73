// Values that facts give, term by term.

ghost use Rattle.std.specs.Prelude.{◌≡◌, ◌<◌, ◌||◌, length, IfOk, if◌then◌else◌};
ghost use Rattle.spv_assignments.specs.partial_assignment.Values.{core_value, value_by};
ghost use Rattle.spv_assignments.specs.partial_assignment.Facts.{facts_of};
ghost use Rattle.spv_assignments.specs.partial_assignment.Following.{AreListed};
ghost use Rattle.spv_assignments.specs.declared.assignment_vector.sayings.RowConstraint.TheVariants as saying;
ghost use Rattle.spv_assignments.specs.assignment_vector.Sayings.{AreThere, says};
ghost use Rattle.spv_assignments.specs.assignment_vector.Values as spec;
ghost use Rattle.spv_assignments.specs.assignment_vector.Values.{apart_value, CoresAre, direct_value, IsFor, ListedFor, Said, truth_of};
ghost use Rattle.spv_atoms.specs.Tables as tables;

use crate::assignment_vector::reading::{affirmed, sayings_of};
use crate::assignment_vector::sayings::{RowConstraint, Sayings};
use crate::kleene::value_at;
use crate::partial_assignment::{Known, Listed};
use spv_proof_steps::candidates::negated;
use spv_proof_steps::sides;
use spv_term::{TermId, Terms};
use std::alloc::{AllocError, Global};

// The truth of a term, where it is said to be true by this.
fn truth(given: &Sayings, s: RowConstraint, t: TermId) -> Option<bool>
    ensures { result ≡ truth_of (says given.now s) (says given.now (saying.Denies t)) }
{
    if given.has(s) {
        Some(true)
    } else if given.has(RowConstraint::Denies(t)) {
        Some(false)
    } else {
        None
    }
}

// The truth that a term that is no negation has by a fact.
fn direct(terms: &Terms, given: &Sayings, t: TermId) -> Option<bool>
    requires { t.0 < length terms.now.nodes }
    ensures { IsFor terms.now (Said terms.now given.now) direct_value t result }
{
    terms.law_arena();
    match negated(terms, t) {
        Some(_) => None,
        None => truth(given, affirmed(terms, t), t),
    }
}

// The truth of an equation of these sides, where an order of them is said.
fn ordered(given: &Sayings, left: TermId, right: TermId) -> Option<bool>
    ensures { result ≡ spec.ordered (says given.now (saying.Orders left right)) (says given.now (saying.Orders right left)) }
{
    if given.has(RowConstraint::Orders(left, right)) {
        Some(false)
    } else if given.has(RowConstraint::Orders(right, left)) {
        Some(false)
    } else {
        None
    }
}

// The truth that an order of its sides gives to a term.
fn apart(terms: &Terms, given: &Sayings, t: TermId) -> Option<bool>
    requires { t.0 < length terms.now.nodes }
    ensures { IsFor terms.now (Said terms.now given.now) apart_value t result }
{
    terms.law_arena();
    match sides(terms, t) {
        Some((left, right)) => ordered(given, left, right),
        None => None,
    }
}

// The first value, else the second one.
fn or_else(a: Option<bool>, b: Option<bool>) -> Option<bool>
    ensures { result ≡ tables.or_else a b }
{
    match a {
        Some(value) => Some(value),
        None => b,
    }
}

// The opposite value.
fn not_of(a: Option<bool>) -> Option<bool>
    ensures { result ≡ tables.not_of a }
{
    match a {
        Some(value) => Some(!value),
        None => None,
    }
}

// The value of a term that is no negation.
fn core(terms: &Terms, given: &Sayings, direct: &[Option<bool>], t: TermId) -> Option<bool>
    requires t { t.0 < length terms.now.nodes }
    requires direct { ListedFor terms.now (Said terms.now given.now) direct_value (length terms.now.nodes) direct.now }
    ensures { IsFor terms.now (Said terms.now given.now) core_value t result }
{
    or_else(value_at(direct, t), apart(terms, given, t))
}

// The value of a term, from those of terms before it.
fn value(terms: &Terms, cores: &[Option<bool>], before: &[Option<bool>], t: TermId) -> Option<bool>
    requires t { t.0 < length terms.now.nodes }
    requires before { ListedFor terms.now (CoresAre terms.now cores.now) value_by t.0 before.now }
    ensures { IsFor terms.now (CoresAre terms.now cores.now) value_by t result }
{
    terms.law_arena();
    match negated(terms, t) {
        Some(u) => not_of(value_at(before, u)),
        None => value_at(cores, t),
    }
}

// The truths that terms that are no negations have by a fact.
fn direct_values(
    alloc: Global,
    terms: &Terms,
    given: &Sayings,
) -> Result<Vec<Option<bool>>, AllocError>
    ensures { IfOk result (λ values. ListedFor terms.now (Said terms.now given.now) direct_value (length terms.now.nodes) values.items) }
{
    let mut values = Vec::new(alloc);
    for i in 0..terms.len() {
        values.push(direct(terms, given, TermId(i)))?;
    }
    Ok(values)
}

// The values of terms that are no negations.
fn core_values(
    alloc: Global,
    terms: &Terms,
    given: &Sayings,
    direct: &[Option<bool>],
) -> Result<Vec<Option<bool>>, AllocError>
    requires { ListedFor terms.now (Said terms.now given.now) direct_value (length terms.now.nodes) direct.now }
    ensures { IfOk result (λ values. ListedFor terms.now (Said terms.now given.now) core_value (length terms.now.nodes) values.items) }
{
    let mut values = Vec::new(alloc);
    for i in 0..terms.len() {
        values.push(core(terms, given, direct, TermId(i)))?;
    }
    Ok(values)
}

// The values of all terms.
fn all_values(
    alloc: Global,
    terms: &Terms,
    cores: &[Option<bool>],
) -> Result<Vec<Option<bool>>, AllocError>
    ensures { IfOk result (λ values. ListedFor terms.now (CoresAre terms.now cores.now) value_by (length terms.now.nodes) values.items) }
{
    let mut values = Vec::new(alloc);
    for i in 0..terms.len() {
        let found = value(terms, cores, values.as_slice(), TermId(i));
        values.push(found)?;
    }
    Ok(values)
}

/// The values that facts give, listed beside the ids of terms.
pub fn listed(alloc: Global, terms: &Terms, known: &[Known]) -> Result<Listed, AllocError>
    requires known { AreThere terms.now known.now }
    ensures { IfOk result (λ l. AreListed terms.now (facts_of terms.now known.now) l.direct.items l.cores.items l.all.items) }
{
    let given = sayings_of(alloc, terms, known)?;
    let direct = direct_values(alloc, terms, &given)?;
    let cores = core_values(alloc, terms, &given, direct.as_slice())?;
    let all = all_values(alloc, terms, cores.as_slice())?;
    Ok(Listed { direct, cores, all })
}
