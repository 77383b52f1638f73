// A condition with its terms, and four more.

ghost use Rattle.std.specs.Prelude.{◌≡◌, ◌<◌, ◌++◌, [], ◌∷◌, map, length, Err, IfOk, OnOk};
ghost use Rattle.spv_term.specs.declared.nodes.TermFault.TheVariants.{Size};
ghost use Rattle.spv_term.specs.Arena.{AllBelow, sequent, Extends};
ghost use Rattle.spv_models.specs.leaf_models.Subterms as spec;
ghost use Rattle.spv_models.specs.leaf_models.Tables.{formulas_of};
ghost use Rattle.spv_search_terms.specs.subterms.Gaining.{Gains, Stops};
ghost use Rattle.spv_search_terms.specs.condition_copy.Copies.{image_in, base_terms, all_terms, IsBase, IsEmptyOver, IsFilled, IsCopy};

use crate::condition_copy::arenas::empty;
use crate::condition_copy::copying::{copy_all, images_of};
use crate::subterms::{IdSet, made, subterms};
use spv_logic::list::List;
use spv_term::{Condition, Head, TermFault, TermId, Terms};
use std::alloc::{AllocError, Global};

/// Four terms that stand in each arena of a search.
#[derive(Clone, Copy, Debug)]
pub struct Base {
    /// The term 0.
    pub zero: TermId,
    /// The term 1.
    pub one: TermId,
    /// The term TRUE.
    pub truth: TermId,
    /// The term FALSE.
    pub falsity: TermId,
}

/// A condition in an arena of its own.
#[derive(Drop)]
pub struct Copied {
    /// The arena: 0, 1, TRUE and FALSE, and behind them the other subterms of the condition in the order
    /// of their first appearance, arguments first.
    pub terms: Terms,
    /// The condition over this arena.
    pub condition: Condition,
    /// The first four terms.
    pub base: Base,
}

/// What was put into an arena.
#[derive(Drop)]
pub(crate) struct Filled {
    pub(crate) condition: Condition,
    pub(crate) base: Base,
}

// Makes 0, 1, TRUE and FALSE.
fn make_base(new: &mut Terms) -> Result<Base, TermFault>
    ensures gains { OnOk result (Gains new.old new.new base_terms) }
    ensures base { IfOk result (IsBase new.new) }
    ensures grows { Extends new.old new.new }
    ensures size { result ≡ Err Size → Stops new.old base_terms }
{
    let zero = made(new, Head::Num(0), &[])?;
    let one = made(new, Head::Num(1), &[])?;
    let truth = made(new, Head::True, &[])?;
    let falsity = made(new, Head::False, &[])?;
    Ok(Base {
        zero,
        one,
        truth,
        falsity,
    })
}

// The formulas of a condition: the hypotheses, and the goal last.
fn roots(alloc: Global, condition: &Condition) -> Result<Vec<TermId>, AllocError>
    ensures { IfOk result (λ roots. roots.items ≡ condition.now.given ++ condition.now.goal ∷ []) }
{
    let mut roots = Vec::new(alloc);
    roots.extend_from_slice(condition.given.as_slice())?;
    roots.push(condition.goal)?;
    Ok(roots)
}

// A condition with the images of its formulas in their places.
fn moved(
    alloc: Global,
    order: &IdSet,
    images: &[TermId],
    condition: &Condition,
) -> Result<Condition, AllocError>
    ensures given { IfOk result (λ c. c.given ≡ map (image_in order.now images.now) condition.now.given) }
    ensures goal { IfOk result (λ c. c.goal ≡ image_in order.now images.now condition.now.goal) }
    ensures origin { IfOk result (λ c. c.origin ≡ condition.now.origin) }
{
    let given = images_of(alloc, order, images, condition.given.as_slice())?;
    let goal = images_of(alloc, order, images, &[condition.goal])?;
    Ok(Condition {
        given: List::from_vec(given),
        goal: goal[0],
        origin: condition.origin,
    })
}

// Makes 0, 1, TRUE and FALSE and a condition of another arena in one without terms.
fn fill(
    alloc: Global,
    terms: &Terms,
    condition: &Condition,
    new: &mut Terms,
) -> Result<Filled, TermFault>
    requires given { AllBelow (length terms.now.nodes) condition.now.given }
    requires goal { condition.now.goal.0 < length terms.now.nodes }
    requires shapes { new.old.shapes ≡ terms.now.shapes }
    requires decls { new.old.decls ≡ terms.now.decls }
    ensures gains { OnOk result (Gains new.old new.new
        (base_terms ++ spec.subterms (formulas_of (sequent terms.now condition.now)))) }
    ensures filled { IfOk result (IsFilled terms.now condition.now new.new) }
    ensures size { result ≡ Err Size → Stops new.old
        (base_terms ++ spec.subterms (formulas_of (sequent terms.now condition.now))) }
{
    terms.law_arena();
    let base = make_base(new)?;
    let roots = roots(alloc, condition)?;
    let order = subterms(alloc, terms, roots.as_slice())?;
    let images = copy_all(alloc, terms, &order, new)?;
    let condition = moved(alloc, &order, images.as_slice(), condition)?;
    Ok(Filled { condition, base })
}

/// The condition in an arena of its own, for at most `most` terms, over the same types and symbols: what
/// it claims is the same, and so is where it comes from. Each different subterm is made once, and
/// nothing else stands in the arena but 0, 1, TRUE and FALSE. `Size` comes only where these are more
/// than `most`.
pub fn copy_condition(
    alloc: Global,
    terms: &Terms,
    condition: &Condition,
    most: u32,
) -> Result<Copied, TermFault>
    requires given { AllBelow (length terms.now.nodes) condition.now.given }
    requires goal { condition.now.goal.0 < length terms.now.nodes }
    ensures copy { IfOk result (IsCopy terms.now condition.now most) }
    ensures size { result ≡ Err Size → most < length (all_terms (sequent terms.now condition.now)) }
{
    let mut new = empty(alloc, terms, most)?;
    match fill(alloc, terms, condition, &mut new) {
        Ok(filled) => Ok(Copied {
            terms: new,
            condition: filled.condition,
            base: filled.base,
        }),
        Err(fault) => Err(fault),
    }
}
