// A contradiction of bounds as multiples of facts.

ghost use Rattle.std.specs.Prelude.{◌≡◌, map, IfOk};
ghost use Rattle.spv_frac.specs.rational.Rational.{number};
ghost use Rattle.spv_tableau_rules.specs.tableaux.Contradictions as contradictions;
ghost use Rattle.spv_tableau_rules.specs.constraints.Sources as spec;
ghost use Rattle.spv_arithmetic_side.specs.bounds.Multiples.{multiple_in};
ghost use Rattle.spv_arithmetic_side.specs.bounds.Sources.{sources_in};

use crate::bounds::sources::{RowSources, source};
use spv_frac::{Frac, law_frac};
use spv_logic::list::List;
use spv_tableau_rules::tableaux::Side;
use std::alloc::{AllocError, Global};

// A factor, on the lower side with the other sign.
fn signed(side: Side, factor: Frac) -> Frac
    ensures { result ≡ (contradictions.signed side (number factor)).fraction }
{
    law_frac(&factor);
    match side {
        Side::Lower => factor.neg(),
        Side::Upper => factor,
    }
}

// What a fact is multiplied by, for a bound on this side times this factor.
fn multiplier(is_equal: bool, side: Side, factor: Frac) -> Frac
    ensures { result ≡ (spec.multiplier is_equal side (number factor)).fraction }
{
    law_frac(&factor);
    if is_equal {
        signed(side, factor)
    } else {
        factor
    }
}

/// Multiples of bounds as multiples of the facts that these come from: each has its multiplier and the number of the fact. A
/// lower bound that comes from an equality has its factor with the other sign.
pub fn fact_multiples(
    alloc: Global,
    combination: &[(u32, Side, Frac)],
    sources: &[RowSources],
) -> Result<List<(Frac, u32)>, AllocError>
    ensures { IfOk result (λ list. list ≡ spec.fact_multiples (sources_in sources.now) (map multiple_in combination.now)) }
{
    let mut list = List::new(alloc);
    for multiple in combination {
        let from = source(sources, multiple.0, multiple.1);
        list.push((multiplier(from.is_equal, multiple.1, multiple.2), from.fact))?;
    }
    Ok(list)
}
