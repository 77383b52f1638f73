// The subterms, the atoms and the questions of a search.

ghost use Rattle.std.specs.Prelude.{◌≡◌, ◌<◌, ◌++◌, [], ◌∷◌, map, length, Err, IfOk, OnOk};
ghost use Rattle.spv_term.specs.declared.nodes.TermFault.TheVariants.{Size};
ghost use Rattle.spv_term.specs.Arena.{AllBelow, sequent, Extends};
ghost use Rattle.spv_models.specs.leaf_models.Atoms.{all_equations};
ghost use Rattle.spv_models.specs.leaf_models.Subterms as spec;
ghost use Rattle.spv_models.specs.leaf_models.Tables.{formulas_of};
ghost use Rattle.spv_search_terms.specs.subterms.Gaining.{Stops};
ghost use Rattle.spv_search_terms.specs.split_candidates.Asking.{IsGathered, AreEquated, IsCompleted, IsAsked};

use crate::head_index::chains;
use crate::split_candidates::adding::{add_atoms, add_questions};
use crate::split_candidates::pairs::equate_all;
use crate::subterms::{IdSet, listed, subterms};
use spv_term::{Condition, TermFault, TermId, Terms};
use std::alloc::{AllocError, Global};

/// The subterms, the atoms and the questions of a search.
#[derive(Drop)]
pub struct Questions {
    /// The different subterms of the formulas, in the order of their first appearance, arguments first.
    pub subterms: IdSet,
    /// Which of them a table lists, one by one.
    pub listed: Vec<bool>,
    /// The atoms among them, and behind these the equations of each two comparable applications.
    pub atoms: Vec<TermId>,
    /// What has to have a truth: the atoms, and behind them the arguments of sort Bool of what is no
    /// connective.
    pub questions: IdSet,
}

/// What is known before equations are made.
#[derive(Drop)]
pub(crate) struct Gathered {
    pub(crate) subterms: IdSet,
    pub(crate) listed: Vec<bool>,
    pub(crate) next: Vec<usize>,
}

// The formulas of a condition: the hypotheses, and the goal last.
fn roots(alloc: Global, condition: &Condition) -> Result<Vec<TermId>, AllocError>
    ensures { IfOk result (λ roots. roots.items ≡ condition.now.given ++ condition.now.goal ∷ []) }
{
    let mut roots = Vec::new(alloc);
    roots.extend_from_slice(condition.given.as_slice())?;
    roots.push(condition.goal)?;
    Ok(roots)
}

// The subterms of a condition, which of them a table lists, and chains of those of one head.
fn gather(alloc: Global, terms: &Terms, condition: &Condition) -> Result<Gathered, AllocError>
    requires given { AllBelow (length terms.now.nodes) condition.now.given }
    requires goal { condition.now.goal.0 < length terms.now.nodes }
    ensures { IfOk result (IsGathered terms.now condition.now) }
{
    let roots = roots(alloc, condition)?;
    let found = subterms(alloc, terms, roots.as_slice())?;
    let flags = listed(alloc, terms, &found)?;
    let next = chains(alloc, terms, found.as_slice())?;
    Ok(Gathered {
        subterms: found,
        listed: flags,
        next,
    })
}

// The atoms of a search, with the equations of each two comparable applications made.
fn atoms_of(
    alloc: Global,
    terms: &mut Terms,
    condition: &Condition,
    gathered: &Gathered,
) -> Result<IdSet, TermFault>
    requires gathered { IsGathered terms.old condition.now gathered.now }
    ensures atoms { IfOk result (AreEquated terms.old condition.now terms.new) }
    ensures grows { Extends terms.old terms.new }
    ensures size { result ≡ Err Size → Stops terms.old
        (all_equations terms.old.shapes terms.old.decls (spec.subterms (formulas_of (sequent terms.old condition.now)))) }
{
    let _ = condition;
    let mut out = IdSet::new(alloc);
    let found = gathered.subterms.as_slice();
    add_atoms(terms, found, &mut out)?;
    equate_all(
        terms,
        found,
        gathered.next.as_slice(),
        gathered.listed.as_slice(),
        &mut out,
    )?;
    Ok(out)
}

// The same terms as a vector.
fn copied(alloc: Global, items: &[TermId]) -> Result<Vec<TermId>, AllocError>
    ensures { IfOk result (λ copy. copy.items ≡ items.now) }
{
    let mut copy = Vec::new(alloc);
    copy.extend_from_slice(items)?;
    Ok(copy)
}

// The questions behind the atoms.
fn with_questions(
    alloc: Global,
    terms: &Terms,
    gathered: Gathered,
    atoms: IdSet,
) -> Result<Questions, AllocError>
    requires subterms { AllBelow (length terms.now.nodes) gathered.subterms }
    requires atoms { AllBelow (length terms.now.nodes) atoms }
    ensures { IfOk result (λ q. IsCompleted terms.now gathered atoms q) }
{
    let mut questions = atoms;
    let atoms = copied(alloc, questions.as_slice())?;
    add_questions(terms, gathered.subterms.as_slice(), &mut questions)?;
    Ok(Questions {
        subterms: gathered.subterms,
        listed: gathered.listed,
        atoms,
        questions,
    })
}

/// The subterms, the atoms and the questions of a search for a proof of a condition. The equations of each
/// two comparable applications are made, and nothing else. `Size` comes only where the arena would
/// have more terms with them than it may have.
pub fn ask(alloc: Global, terms: &mut Terms, condition: &Condition) -> Result<Questions, TermFault>
    requires given { AllBelow (length terms.old.nodes) condition.now.given }
    requires goal { condition.now.goal.0 < length terms.old.nodes }
    ensures asked { IfOk result (IsAsked terms.old condition.now terms.new) }
    ensures grows { Extends terms.old terms.new }
    ensures size { result ≡ Err Size → Stops terms.old
        (all_equations terms.old.shapes terms.old.decls (spec.subterms (formulas_of (sequent terms.old condition.now)))) }
{
    let gathered = gather(alloc, terms, condition)?;
    let atoms = atoms_of(alloc, terms, condition, &gathered)?;
    let questions = with_questions(alloc, terms, gathered, atoms)?;
    Ok(questions)
}
