// Equations along the links of an explanation.

ghost use Rattle.std.specs.Prelude.{◌≡◌, ◌<◌, length, Some, IsSome, IfSome, IfNone, IfOk};
ghost use Rattle.spv_logic.specs.declared.conditions.TermId.{TermId};
ghost use Rattle.spv_logic.specs.Formulas.{equation};
ghost use Rattle.spv_term.specs.Arena.{Arena, tree};
ghost use Rattle.spv_derivations.specs.derivation.Derivation.{Gains, IsDerivation};
ghost use Rattle.spv_derivations.specs.derivation.Sides.{sides_at};
ghost use Rattle.spv_explanations.specs.equalities.Known.{AreShown};
ghost use Rattle.spv_explanations.specs.equalities.Links.{AllKnown, AreEnds, HasLink, IsSoFar, IsWay, LeadsBy, LinkKnown, Reaches};
ghost use Rattle.spv_derivations.specs.derivation.Literals.{literals};
ghost use Rattle.spv_explanations.specs.equalities.Reasons.{Equates, GoesOn};

use crate::equalities::known::Known;
use spv_congruence::Link;
use spv_derivations::derivation::Derivation;
use spv_term::{TermId, Terms};
use std::alloc::AllocError;

/// How far a way has come: a term, and the number of the fact that it equals the first one. Without a number it is the first one.
#[derive(Clone, Copy, Debug)]
pub(crate) struct Way {
    pub(crate) at: TermId,
    pub(crate) number: Option<u32>,
}

// Passes an equation that its entry states, the one way round or the other.
fn pass_told(
    derivation: &mut Derivation,
    terms: &Terms,
    why: u32,
    at: TermId,
) -> Result<Way, AllocError>
    requires { IsSome (sides_at terms.now derivation.old why) }
    ensures goes_on { GoesOn derivation.old derivation.new }
    ensures literals { literals derivation.new ≡ literals derivation.old }
    ensures reaches { IfOk result (λ w. (t : TermId) → IsDerivation terms.now derivation.old
        → AreEnds (sides_at terms.now derivation.old why) at t → Reaches terms.now derivation.old derivation.new at t w) }
{
    terms.law_arena();
    let (left, right) = derivation.sides(terms, why).unwrap();
    if left.0 == at.0 {
        return Ok(Way {
            at: right,
            number: Some(why),
        });
    }
    let number = derivation.symmetric(why)?;
    Ok(Way {
        at: left,
        number: Some(number),
    })
}

// Passes a link.
fn pass(
    derivation: &mut Derivation,
    terms: &Terms,
    known: &Known,
    link: Link,
    at: TermId,
) -> Result<Way, AllocError>
    requires { (t : TermId) × LeadsBy terms.now derivation.old known.now link at t }
    ensures goes_on { GoesOn derivation.old derivation.new }
    ensures literals { literals derivation.new ≡ literals derivation.old }
    ensures reaches { IfOk result (λ w. (t : TermId) → IsDerivation terms.now derivation.old → AreShown terms.now derivation.old known.now
        → LeadsBy terms.now derivation.old known.now link at t → Reaches terms.now derivation.old derivation.new at t w) }
{
    match link {
        Link::Told(why) => pass_told(derivation, terms, why, at),
        Link::Congruent(left, right) => Ok(Way {
            at: right,
            number: known.number(left, right),
        }),
    }
}

// Two ways, one behind the other.
fn linked(
    derivation: &mut Derivation,
    before: Option<u32>,
    behind: Option<u32>,
) -> Result<Option<u32>, AllocError>
    ensures goes_on { GoesOn derivation.old derivation.new }
    ensures literals { literals derivation.new ≡ literals derivation.old }
    ensures reaches { IfOk result (λ n. (a : Arena) (s t u : TermId) → IsDerivation a derivation.old
        → IsSoFar a derivation.old s t before → IsSoFar a derivation.old t u behind
        → Reaches a derivation.old derivation.new s u (record { at = u; number = n })) }
{
    let Some(first) = before else {
        return Ok(behind);
    };
    let Some(second) = behind else {
        return Ok(before);
    };
    let number = derivation.transitive(first, second)?;
    Ok(Some(number))
}

// Goes one link further.
fn extended(
    derivation: &mut Derivation,
    terms: &Terms,
    known: &Known,
    link: Link,
    way: Way,
) -> Result<Way, AllocError>
    requires { (t : TermId) × LeadsBy terms.now derivation.old known.now link way.at t }
    ensures goes_on { GoesOn derivation.old derivation.new }
    ensures literals { literals derivation.new ≡ literals derivation.old }
    ensures reaches { IfOk result (λ w. (s t : TermId) → IsDerivation terms.now derivation.old → AreShown terms.now derivation.old known.now
        → IsSoFar terms.now derivation.old s way.at way.number → LeadsBy terms.now derivation.old known.now link way.at t
        → Reaches terms.now derivation.old derivation.new s t w) }
{
    let step = pass(derivation, terms, known, link, way.at)?;
    let number = linked(derivation, way.number, step.number)?;
    Ok(Way {
        at: step.at,
        number,
    })
}

/// The equation of two terms, along links from the one to the other.
pub(crate) fn chain(
    derivation: &mut Derivation,
    terms: &Terms,
    known: &Known,
    links: &[Link],
    s: TermId,
    t: TermId,
) -> Result<u32, AllocError>
    requires derivation { IsDerivation terms.now derivation.old }
    requires shown { AreShown terms.now derivation.old known.now }
    requires way { IsWay terms.now derivation.old known.now s links.now t }
    requires within { s.0 < length terms.now.nodes }
    ensures goes_on { GoesOn derivation.old derivation.new }
    ensures literals { literals derivation.new ≡ literals derivation.old }
    ensures gains { IfOk result (λ n. Gains terms.now derivation.old derivation.new n (equation (tree terms.now s) (tree terms.now t))) }
{
    let mut way = Way {
        at: s,
        number: None,
    };
    for link in links {
        way = extended(derivation, terms, known, *link, way)?;
    }
    match way.number {
        Some(number) => Ok(number),
        None => derivation.reflexive(s),
    }
}

// The two terms of a link of congruent terms whose equation has no number.
fn unknown(known: &Known, link: Link) -> Option<(TermId, TermId)>
    ensures none { IfNone result (LinkKnown known.now link) }
    ensures some { IfSome result (λ p. link ≡ Link.Congruent p.0 p.1) }
{
    match link {
        Link::Told(_) => None,
        Link::Congruent(left, right) => match known.number(left, right) {
            Some(_) => None,
            None => Some((left, right)),
        },
    }
}

/// The two terms of the first link of congruent terms whose equation has no number.
pub(crate) fn first_unknown(known: &Known, links: &[Link]) -> Option<(TermId, TermId)>
    ensures none { IfNone result (AllKnown known.now links.now) }
    ensures some { IfSome result (λ p. HasLink links.now p.0 p.1) }
{
    for link in links {
        if let Some(pair) = unknown(known, *link) {
            return Some(pair);
        }
    }
    None
}
