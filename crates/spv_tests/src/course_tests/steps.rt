// Steps of a derivation with the numbers of a path outside.

use spv_atoms::{Stated, Step};
use spv_derivations::derivation::{Derivation, Part};
use spv_logic::list::List;
use spv_term::TermId;
use std::alloc::{AllocError, Global};
use std::test::Fail;

// Whether steps turn fact 7, go by it and fact 10 and end by facts 11 and 7.
fn go_round(steps: &[Step]) -> bool {
    match steps {
        [Step::Symm(7), Step::Trans(7, 10), Step::Contra(11, Some(7))] => true,
        _ => false,
    }
}

// Whether a step is an evaluation of two terms by fact 5.
fn evaluates_five(step: &Step) -> bool {
    match step {
        Step::Eval(Stated::Same(TermId(0), TermId(1)), ks) => ks.as_slice() == [5].as_slice(),
        _ => false,
    }
}

// Whether a step is a congruence of two terms by facts 6 and 5.
fn joins_six_and_five(step: &Step) -> bool {
    match step {
        Step::Cong(TermId(2), TermId(3), ks) => ks.as_slice() == [6, 5].as_slice(),
        _ => false,
    }
}

// A fact that is told under number 7, turned, and both one behind the other; and the end by the last and the first.
fn round_steps(alloc: Global) -> Result<Vec<Step>, AllocError> {
    let mut derivation = Derivation::new(alloc);
    let told = derivation.told(TermId(4), Part::True, 7)?;
    let turned = derivation.symmetric(told)?;
    let around = derivation.transitive(told, turned)?;
    derivation.closing_steps(alloc, 9, around, Some(told))
}

// A fact that is told under number 5, its evaluation, and a congruence by both.
fn listed_steps(alloc: Global) -> Result<Vec<Step>, AllocError> {
    let mut derivation = Derivation::new(alloc);
    let told = derivation.told(TermId(0), Part::False, 5)?;
    let valued = derivation.equal_to_false(TermId(0), TermId(1), told)?;
    let mut ks = List::new(alloc);
    ks.push(valued)?;
    ks.push(told)?;
    derivation.congruent(TermId(2), TermId(3), ks)?;
    derivation.steps(alloc, 5)
}

#[test]
fn told_and_derived_numbers(rt: HostRuntime) -> Result<(), Fail> {
    let steps = round_steps(rt.alloc())?;
    assert!(rt; go_round(steps.as_slice()));
    Ok(())
}

#[test]
fn lists_of_numbers(rt: HostRuntime) -> Result<(), Fail> {
    let steps = listed_steps(rt.alloc())?;
    assert_eq!(rt; steps.len(), 2);
    assert!(rt; evaluates_five(&steps[0]));
    assert!(rt; joins_six_and_five(&steps[1]));
    Ok(())
}
