// Facts that are known, each with its number.

ghost use Rattle.std.specs.Prelude.{◌≡◌, IfOk};
ghost use Rattle.spv_assignments.specs.partial_assignment.Facts.{numbers_of};

use spv_derivations::derivation::Part;
use spv_term::TermId;
use std::alloc::{AllocError, Global};

/// A fact that is known: a term of an arena, what it says of the term, and its number.
#[derive(Clone, Copy, Debug)]
pub struct Known {
    /// The term, which is no negation.
    pub term: TermId,
    /// That it is true, that it is false, or of an equation which side is below the other.
    pub part: Part,
    /// The number of the fact.
    pub fact: u32,
}

/// The numbers of all facts.
pub fn numbers(alloc: Global, known: &[Known]) -> Result<Vec<u32>, AllocError>
    ensures { IfOk result (λ cites. cites.items ≡ numbers_of known.now) }
{
    let mut cites = Vec::new(alloc);
    for k in known {
        cites.push(k.fact)?;
    }
    Ok(cites)
}
