// What steps cite.

use spv_atoms::Step;
use spv_frac::Frac;
use std::alloc::{AllocError, Global};

fn push_all(list: &mut Vec<u32>, numbers: &[u32]) -> Result<(), AllocError> {
    for number in numbers {
        list.push(*number)?;
    }
    Ok(())
}

fn push_multiples(list: &mut Vec<u32>, multiples: &[(Frac, u32)]) -> Result<(), AllocError> {
    for multiple in multiples {
        list.push(multiple.1)?;
    }
    Ok(())
}

/// The numbers of the facts that a step cites; 0 among them is none.
pub(crate) fn cited(alloc: Global, step: &Step) -> Result<Vec<u32>, AllocError> {
    let mut list = Vec::new(alloc);
    match step {
        Step::Symm(i) => list.push(*i)?,
        Step::Trans(i, j) => push_all(&mut list, &[*i, *j])?,
        Step::Cong(_, _, ks) => push_all(&mut list, ks.as_slice())?,
        Step::Linear(_, first, second) => {
            push_multiples(&mut list, first.as_slice())?;
            push_multiples(&mut list, second.as_slice())?;
        }
        Step::Eval(_, ks) => push_all(&mut list, ks.as_slice())?,
        Step::Contra(i, j) => push_all(&mut list, &[*i, j.unwrap_or(0)])?,
        _ => {}
    }
    Ok(list)
}
