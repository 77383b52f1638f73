//! The atoms and the truth of (AND Q (OR P Q)).

ghost use Rattle.std.specs.Prelude.{◌≡◌, ◌<◌, length, IfOk};

use crate::rules::{law_ends, law_equations, law_evaluations, law_multiples, law_splits};
use spv_atoms::{atoms, law_form, law_truth, truth};
use spv_frac::rational::{law_number, law_products, law_signs, law_sums, law_whole};
use spv_logic::list::List;
use spv_logic::names::Symbol;
use spv_proof_rules::{law_check, law_examples, law_outcome};
use spv_term::{Head, PlainWorld, Shapes, Sort, TermFault, TermId, Terms};
use std::alloc::Global;
use std::test::Fail;

// An arena with P, Q and (AND Q (OR P Q)).
fn both(alloc: Global) -> Result<(Terms, TermId, TermId, TermId), TermFault>
    ensures p { IfOk result (λ r. r.1.0 < length r.0.nodes) }
    ensures q { IfOk result (λ r. r.2.0 < length r.0.nodes) }
    ensures formula { IfOk result (λ r. r.3.0 < length r.0.nodes) }
{
    let mut terms = Terms::new(alloc, Shapes::new(alloc), List::new(alloc), 9);
    let p = terms.make(Head::Var(Symbol(0), Sort::Bool, 0), &[])?;
    let q = terms.make(Head::Var(Symbol(1), Sort::Bool, 0), &[])?;
    let or = terms.make(Head::Or, &[p, q])?;
    let and = terms.make(Head::And, &[q, or])?;
    Ok((terms, p, q, and))
}

#[test]
fn atoms_come_once_and_in_order(rt: HostRuntime) -> Result<(), Fail> {
    let (terms, p, q, formula) = both(rt.alloc())?;
    let mut out = Vec::new(rt.alloc());
    atoms(&terms, formula, &mut out)?;
    assert_eq!(rt; out.as_slice(), [q, p].as_slice());
    Ok(())
}

#[test]
fn truth_goes_by_the_tables(rt: HostRuntime) -> Result<(), Fail> {
    let (terms, p, q, formula) = both(rt.alloc())?;
    let known = [(p, true), (p, false)];
    assert_eq!(rt; truth(rt.alloc(), &terms, formula, &known)?, None);
    let known = [(q, true)];
    assert_eq!(rt; truth(rt.alloc(), &terms, formula, &known)?, Some(true));
    Ok(())
}

#[test]
fn laws_may_be_called(_rt: HostRuntime) {
    law_sums();
    law_products();
    law_whole();
    law_number();
    law_signs();
    law_form();
    law_truth();
    law_check(&PlainWorld);
    law_examples();
    law_outcome();
    law_equations();
    law_evaluations();
    law_ends();
    law_multiples();
    law_splits();
}
