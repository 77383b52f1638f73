// Whether a value is one of the labels of an arm.

ghost use Rattle.std.specs.Prelude.{◌≡◌, ◌<◌, ◌∷◌, fold, length, IfOk, pos};
ghost use Rattle.spv_term.specs.Arena.{Extends, sort_at, tree};
ghost use Rattle.spv_meaning.specs.Before as before;
ghost use Rattle.spv_assign.specs.creation_trace.Events.{Answers};
ghost use Rattle.spv_assign.specs.creation_trace.StatementEvents.{one};
ghost use Rattle.spv_assign.specs.limited_steps.Makes.{IsTerm};
ghost use Rattle.spv_assign.specs.limited_steps.Labels.{or_number};

use crate::creation_trace::GenFault;
use crate::limited_steps::making::made;
use crate::limited_steps::operators::{binary, over_numeral};
use spv_logic::{Head, Sort};
use spv_term::{TermId, Terms};

// A test, or whether a value is this number.
fn or_number(terms: &mut Terms, t: TermId, test: TermId, z: &i64) -> Result<TermId, GenFault>
    requires t { t.0 < length terms.old.nodes }
    requires sort { sort_at terms.old t ≡ Sort.Int }
    requires test { test.0 < length terms.old.nodes }
    requires test_sort { sort_at terms.old test ≡ Sort.Bool }
    ensures term { IfOk result (λ u. IsTerm terms.new u (or_number (tree terms.old t) (tree terms.old test) z.now)) }
    ensures sort { IfOk result (λ u. sort_at terms.new u ≡ Sort.Bool) }
    ensures grows { Extends terms.old terms.new }
    ensures walk { Answers result (one (or_number (tree terms.old t) (tree terms.old test) z.now)) terms.old terms.new }
{
    let next = over_numeral(terms, Head::Eq, t, z)?;
    binary(terms, Head::Or, test, next)
}

// A test, or whether a value is one of these numbers.
fn or_numbers(
    terms: &mut Terms,
    t: TermId,
    test: TermId,
    numbers: &[i64],
) -> Result<TermId, GenFault>
    requires t { t.0 < length terms.old.nodes }
    requires sort { sort_at terms.old t ≡ Sort.Int }
    requires test { test.0 < length terms.old.nodes }
    requires test_sort { sort_at terms.old test ≡ Sort.Bool }
    ensures term { IfOk result (λ u. IsTerm terms.new u (fold (or_number (tree terms.old t)) (tree terms.old test) numbers.now)) }
    ensures sort { IfOk result (λ u. sort_at terms.new u ≡ Sort.Bool) }
    ensures grows { Extends terms.old terms.new }
    ensures walk { Answers result (one (fold (or_number (tree terms.old t)) (tree terms.old test) numbers.now)) terms.old terms.new }
{
    let mut all = test;
    for z in numbers {
        all = or_number(terms, t, all, z)?;
    }
    Ok(all)
}

// Whether a value is the first number or one of the others.
fn one_of(terms: &mut Terms, t: TermId, first: &i64, others: &[i64]) -> Result<TermId, GenFault>
    requires t { t.0 < length terms.old.nodes }
    requires sort { sort_at terms.old t ≡ Sort.Int }
    ensures term { IfOk result (λ u. IsTerm terms.new u (before.is_label (tree terms.old t) (first.now ∷ others.now))) }
    ensures sort { IfOk result (λ u. sort_at terms.new u ≡ Sort.Bool) }
    ensures grows { Extends terms.old terms.new }
    ensures walk { Answers result (one (before.is_label (tree terms.old t) (first.now ∷ others.now))) terms.old terms.new }
{
    let test = over_numeral(terms, Head::Eq, t, first)?;
    or_numbers(terms, t, test, others)
}

/// Whether a number is one of these labels: equations joined by OR, from the left; FALSE for none.
pub fn is_label(terms: &mut Terms, t: TermId, labels: &[i64]) -> Result<TermId, GenFault>
    requires t { t.0 < length terms.old.nodes }
    requires sort { sort_at terms.old t ≡ Sort.Int }
    ensures term { IfOk result (λ u. IsTerm terms.new u (before.is_label (tree terms.old t) labels.now)) }
    ensures sort { IfOk result (λ u. sort_at terms.new u ≡ Sort.Bool) }
    ensures grows { Extends terms.old terms.new }
    ensures walk { Answers result (one (before.is_label (tree terms.old t) labels.now)) terms.old terms.new }
{
    match labels {
        [] => made(terms, Head::False, &[]),
        [first, others @ ..] => one_of(terms, t, first, others),
    }
}
