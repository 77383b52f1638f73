// Terms in the place of variables, all at once.

ghost use Rattle.std.specs.Prelude.{◌≡◌, ◌<◌, [], ◌∷◌, length, map, Err, IfOk};
ghost use Rattle.spv_logic.specs.Substitution.{substitute};
ghost use Rattle.spv_term.specs.declared.nodes.TermFault.TheVariants.{Size};
ghost use Rattle.spv_term.specs.Arena.{AllBelow, tree, sort_at, sorts_at, Extends};
ghost use Rattle.spv_term.specs.substitution.Images.{pairs_at, ArePairs, substituted};
ghost use Rattle.spv_term.specs.substitution.Parts.{AddsParts, LacksPart};

use crate::substitution::images::Images;
use crate::substitution::walk::{push_visits, step};
use crate::{TermFault, TermId, Terms};
use std::alloc::Global;

/// The terms of a list with the second terms of pairs in the place of the first ones, all at once.
/// Each different subterm is visited once. `Size` comes only where the arena is full and a part of
/// one of the answers is not there; nothing but parts of them is added, also before an error.
pub fn substitute_all(
    terms: &mut Terms,
    alloc: Global,
    list: &[TermId],
    pairs: &[(TermId, TermId)],
) -> Result<Vec<TermId>, TermFault>
    requires list { AllBelow (length terms.old.nodes) list.now }
    requires pairs { ArePairs terms.old pairs.now }
    ensures trees { IfOk result (λ us. map (tree terms.new) us.items ≡ substituted terms.old pairs.now list.now) }
    ensures sorts { IfOk result (λ us. sorts_at terms.new us.items ≡ sorts_at terms.old list.now) }
    ensures in_range { IfOk result (λ us. AllBelow (length terms.new.nodes) us.items) }
    ensures grows { Extends terms.old terms.new }
    ensures only { AddsParts terms.old terms.new (substituted terms.old pairs.now list.now) }
    ensures size { result ≡ Err Size → LacksPart terms.new (substituted terms.old pairs.now list.now) }
{
    terms.law_arena();
    let mut images = Images::from_pairs(alloc, pairs)?;
    let mut works = Vec::new(alloc);
    push_visits(&mut works, list)?;
    while let Some(work) = works.pop() {
        step(terms, alloc, work, &mut works, &mut images)?;
    }
    let answers = images.all(alloc, list)?;
    Ok(answers)
}

/// A term with the second terms of pairs in the place of the first ones, all at once. Refusals are
/// those of `substitute_all`.
pub fn substitute(
    terms: &mut Terms,
    alloc: Global,
    t: TermId,
    pairs: &[(TermId, TermId)],
) -> Result<TermId, TermFault>
    requires t { t.0 < length terms.old.nodes }
    requires pairs { ArePairs terms.old pairs.now }
    ensures tree { IfOk result (λ u. tree terms.new u ≡ substitute (pairs_at terms.old pairs.now) (tree terms.old t)) }
    ensures sort { IfOk result (λ u. sort_at terms.new u ≡ sort_at terms.old t) }
    ensures in_range { IfOk result (λ u. u.0 < length terms.new.nodes) }
    ensures grows { Extends terms.old terms.new }
    ensures only { AddsParts terms.old terms.new (substituted terms.old pairs.now (t ∷ [])) }
    ensures size { result ≡ Err Size → LacksPart terms.new (substituted terms.old pairs.now (t ∷ [])) }
{
    let answers = substitute_all(terms, alloc, &[t], pairs)?;
    Ok(answers[0])
}
