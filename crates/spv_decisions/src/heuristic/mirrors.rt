// Equations of the same sides, the other way round.

ghost use Rattle.std.specs.Prelude.{◌<◌, length};
ghost use Rattle.spv_term.specs.Arena.{AllBelow};

use indexmap::IndexMap;
use spv_assignments::kleene::value_at;
use spv_proof_steps::sides;
use spv_term::{TermId, Terms};
use std::alloc::{AllocError, Global};

// The sides of an equation.
#[derive(Clone, Copy, PartialEq, Eq, Hash, Debug)]
struct Sides {
    left: TermId,
    right: TermId,
}

// The equations among these terms, by their sides. A look-up goes by a hash.
fn equations_of(
    alloc: Global,
    terms: &Terms,
    ids: &[TermId],
) -> Result<IndexMap<Sides, TermId>, AllocError>
    requires { AllBelow (length terms.now.nodes) ids.now }
{
    let mut equations = IndexMap::new(alloc);
    for t in ids {
        if let Some((left, right)) = sides(terms, *t) {
            equations.insert(Sides { left, right }, *t)?;
        }
    }
    Ok(equations)
}

// The equation of the same sides the other way round, if it is among these.
fn mirror_of(terms: &Terms, equations: &IndexMap<Sides, TermId>, t: TermId) -> Option<TermId>
    requires { t.0 < length terms.now.nodes }
{
    match sides(terms, t) {
        Some((left, right)) => {
            let exchanged = Sides {
                left: right,
                right: left,
            };
            equations.get(&exchanged).copied()
        }
        None => None,
    }
}

/// Beside each of these terms the equation of the same sides the other way round, where it is one and that one is among them.
pub(crate) fn mirrors(
    alloc: Global,
    terms: &Terms,
    ids: &[TermId],
) -> Result<Vec<Option<TermId>>, AllocError>
    requires { AllBelow (length terms.now.nodes) ids.now }
{
    let equations = equations_of(alloc, terms, ids)?;
    let mut list = Vec::new(alloc);
    for t in ids {
        list.push(mirror_of(terms, &equations, *t))?;
    }
    Ok(list)
}

/// The value of a term; of an equation that has none, the value of that of the same sides the other way round.
pub(crate) fn mirrored_value(
    values: &[Option<bool>],
    t: TermId,
    mirror: Option<TermId>,
) -> Option<bool> {
    match (value_at(values, t), mirror) {
        (None, Some(other)) => value_at(values, other),
        (value, _) => value,
    }
}
