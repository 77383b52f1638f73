//! The relations of whole numbers among atoms.

ghost use Rattle.std.specs.Prelude.{◌≡◌, ◌<◌, ◌++◌, ◌∷◌, [], List, length, IfOk, OnOk, Some};
ghost use Rattle.spv_logic.specs.declared.conditions.TermId.{TermId};
ghost use Rattle.spv_term.specs.Arena.{AllBelow, IsArena};
ghost use Rattle.spv_explanations.specs.congruence_side.Holding.{Holds};
ghost use Rattle.spv_share.specs.Relations as spec;
ghost use Rattle.spv_share.specs.Relations.{AreParts, IsGathered};

use spv_arithmetic_side::bounds::number_sides;
use spv_arithmetic_side::farkas::told;
use spv_derivations::derivation::Part;
use spv_explanations::congruence_side::Trail;
use spv_tableau_rules::constraints::RowConstraint;
use spv_term::{Head, TermId, Terms};
use std::alloc::{AllocError, Global};

/// A relation of whole numbers among the atoms: `=`, `<` or `<=`.
#[derive(Clone, Copy, Debug)]
pub struct Related {
    /// The atom.
    pub atom: TermId,
    /// Its head.
    pub head: Head,
    /// Its left side.
    pub left: TermId,
    /// Its right side.
    pub right: TermId,
    /// The place of its row.
    pub row: u32,
}

/// What a literal says of the sides of a row.
#[derive(Clone, Copy, Debug)]
pub struct Claim {
    /// The place of the row.
    pub row: u32,
    /// What is said.
    pub saying: RowConstraint,
}

/// What is noted of a literal that was told.
#[derive(Clone, Copy, Debug)]
pub struct Noted {
    /// What it says of a row, if it is one of a relation.
    pub claim: Option<Claim>,
    /// The number of its fact.
    pub fact: u32,
}

// The first relation that an atom is.
fn find(relations: &[Related], t: TermId) -> Option<Related>
    ensures { result ≡ spec.find relations.now t }
{
    for related in relations {
        if related.atom.0 == t.0 {
            return Some(*related);
        }
    }
    None
}

// What is told of a relation, as what it says of its row.
fn claim_on(related: Related, part: Part) -> Option<Claim>
    ensures { result ≡ spec.claim (Some related) part }
{
    match told(related.head, part) {
        Some(saying) => Some(Claim {
            row: related.row,
            saying,
        }),
        None => None,
    }
}

// What a literal says of a row, if it is one of a relation.
pub(crate) fn claim_of(relations: &[Related], t: TermId, part: Part) -> Option<Claim>
    ensures { result ≡ spec.claim (spec.find relations.now t) part }
{
    match find(relations, t) {
        Some(related) => claim_on(related, part),
        None => None,
    }
}

// A number of 32 bits; want of memory where it has more.
fn number_of(place: usize) -> Result<u32, AllocError>
    ensures { IfOk result (λ n. n ≡ place) }
{
    if place > u32::MAX as usize {
        return Err(AllocError);
    }
    Ok(place as u32)
}

// One relation more.
fn push_relation(
    terms: &Terms,
    relations: &mut Vec<Related>,
    atom: TermId,
    left: TermId,
    right: TermId,
) -> Result<(), AllocError>
    requires { atom.0 < length terms.now.nodes }
    ensures { OnOk result (relations.new.items ≡ relations.old.items ++ spec.related terms.now atom left right (length relations.old.items) ∷ []) }
{
    let row = number_of(relations.as_slice().len())?;
    let head = terms.node(atom).head;
    relations.push(Related {
        atom,
        head,
        left,
        right,
        row,
    })?;
    Ok(())
}

// One atom more, with the relation that it is, if it is one.
fn gather_one(
    terms: &Terms,
    trail: &mut Trail,
    relations: &mut Vec<Related>,
    atom: TermId,
) -> Result<(), AllocError>
    requires within { atom.0 < length terms.now.nodes }
    requires holds { Holds terms.now trail.old }
    ensures gathers { OnOk result ((ts : List TermId) → IsGathered terms.now trail.old ts relations.old.items → IsGathered terms.now trail.new (ts ++ atom ∷ []) relations.new.items) }
{
    terms.law_arena();
    trail.add(terms, atom)?;
    let Some((left, right)) = number_sides(terms, atom) else {
        return Ok(());
    };
    trail.add(terms, left)?;
    trail.add(terms, right)?;
    push_relation(terms, relations, atom, left, right)
}

// The relations among atoms, which are added to a trail with their parts.
pub(crate) fn gather(
    alloc: Global,
    terms: &Terms,
    trail: &mut Trail,
    atoms: &[TermId],
) -> Result<Vec<Related>, AllocError>
    requires below { AllBelow (length terms.now.nodes) atoms.now }
    requires holds { Holds terms.now trail.old }
    requires empty { trail.old.derivation ≡ [] }
    requires untold { trail.old.graph.told ≡ [] }
    requires parts { AreParts terms.now trail.old.graph.nodes (trail.old.truth ∷ trail.old.falsity ∷ []) }
    ensures gathered { IfOk result (λ v. IsGathered terms.now trail.new atoms.now v.items) }
{
    let mut relations = Vec::new(alloc);
    for atom in atoms {
        gather_one(terms, trail, &mut relations, *atom)?;
    }
    Ok(relations)
}
