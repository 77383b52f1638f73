// Terms of one arena, made in another one.

ghost use Rattle.std.specs.Prelude.{◌≡◌, ◌<◌, ◌++◌, [], ◌∷◌, map, length, slice_get, Some, Err, IfOk, OnOk};
ghost use Rattle.spv_term.specs.declared.nodes.Node.{Node};
ghost use Rattle.spv_term.specs.declared.nodes.TermFault.TheVariants.{Size};
ghost use Rattle.spv_term.specs.Arena.{AllBelow, tree, Extends};
ghost use Rattle.spv_atoms.specs.Found.{AreReady};
ghost use Rattle.spv_search_terms.specs.subterms.Gaining.{Gains, Stops};
ghost use Rattle.spv_search_terms.specs.subterms.Walk.{AreBehind};
ghost use Rattle.spv_search_terms.specs.condition_copy.Copies.{image_in, AreImages};

use crate::subterms::{IdSet, made};
use spv_term::{TermFault, TermId, Terms};
use std::alloc::{AllocError, Global};

// The image that stands beside a term; itself where none does.
fn image(order: &IdSet, images: &[TermId], t: TermId) -> TermId
    ensures { result ≡ image_in order.now images.now t }
{
    match order.place(t) {
        Some(place) => images.get(place).copied().unwrap_or(t),
        None => t,
    }
}

/// The images beside terms, one by one.
pub(crate) fn images_of(
    alloc: Global,
    order: &IdSet,
    images: &[TermId],
    list: &[TermId],
) -> Result<Vec<TermId>, AllocError>
    ensures { IfOk result (λ us. us.items ≡ map (image_in order.now images.now) list.now) }
{
    let mut found = Vec::new(alloc);
    for t in list {
        found.push(image(order, images, *t))?;
    }
    Ok(found)
}

// Makes the image of a term whose arguments have theirs.
fn copy_one(
    alloc: Global,
    terms: &Terms,
    order: &IdSet,
    images: &[TermId],
    t: TermId,
    new: &mut Terms,
) -> Result<TermId, TermFault>
    requires t { t.0 < length terms.now.nodes }
    requires images { AreImages terms.now order.now new.old images.now (length images.now) }
    requires ready { (n : Node) → slice_get terms.now.nodes t.0 ≡ Some n
        → AreReady order.now (length images.now) n.args }
    ensures gains { OnOk result (Gains new.old new.new (tree terms.now t ∷ [])) }
    ensures tree { IfOk result (λ u. tree new.new u ≡ tree terms.now t) }
    ensures in_range { IfOk result (λ u. u.0 < length new.new.nodes) }
    ensures grows { Extends new.old new.new }
    ensures size { result ≡ Err Size → Stops new.old (tree terms.now t ∷ []) }
{
    terms.law_arena();
    new.law_arena();
    let node = terms.node(t);
    let args = images_of(alloc, order, images, node.args.as_slice())?;
    made(new, node.head, args.as_slice())
}

fn push(images: &mut Vec<TermId>, one: TermId) -> Result<(), AllocError>
    ensures { OnOk result (images.new.items ≡ images.old.items ++ one ∷ []) }
{
    images.push(one)?;
    Ok(())
}

/// Makes the image of each of these terms of one arena in another one over the same types and symbols, where before each its arguments stand: the images,
/// one beside each. `Size` comes only where the other arena has no room for one of them.
pub fn copy_all(
    alloc: Global,
    terms: &Terms,
    order: &IdSet,
    new: &mut Terms,
) -> Result<Vec<TermId>, TermFault>
    requires in_range { AllBelow (length terms.now.nodes) order.now }
    requires behind { AreBehind terms.now order.now }
    requires shapes { new.old.shapes ≡ terms.now.shapes }
    requires decls { new.old.decls ≡ terms.now.decls }
    ensures gains { OnOk result (Gains new.old new.new (map (tree terms.now) order.now)) }
    ensures images { IfOk result
        (λ images. AreImages terms.now order.now new.new images.items (length order.now)) }
    ensures grows { Extends new.old new.new }
    ensures size { result ≡ Err Size → Stops new.old (map (tree terms.now) order.now) }
{
    terms.law_arena();
    let mut images = Vec::new(alloc);
    for t in order.as_slice() {
        let one = copy_one(alloc, terms, order, images.as_slice(), *t, new)?;
        push(&mut images, one)?;
    }
    Ok(images)
}
