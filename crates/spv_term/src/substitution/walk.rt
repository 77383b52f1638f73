// Going through terms without recursion, and the image of each.

ghost use Rattle.std.specs.Prelude.{◌≡◌, ◌<◌, ◌++◌, [], ◌∷◌, length, Err, OnOk};
ghost use Rattle.spv_term.specs.declared.nodes.TermFault.TheVariants.{Size};
ghost use Rattle.spv_term.specs.Arena.{Extends};
ghost use Rattle.spv_term.specs.substitution.Images.{ImagesFit};
ghost use Rattle.spv_term.specs.substitution.Parts.{AddsOnly, Lacks};
ghost use Rattle.spv_term.specs.substitution.Walk.{id_of, visits, args_at, over_images, AddsFor, LacksFor, Visits, Finishes, Steps};

use crate::substitution::images::Images;
use crate::{TermFault, TermId, Terms};
use std::alloc::{AllocError, Global};

/// What is still to be done.
#[derive(Clone, Copy, Debug)]
pub(crate) enum Work {
    /// A term is to have an image.
    Visit(TermId),
    /// A term is to have an image, whose arguments have theirs.
    Finish(TermId),
}

// Puts visits of terms in front of all other works, the first of them first.
pub(crate) fn push_visits(works: &mut Vec<Work>, args: &[TermId]) -> Result<(), AllocError>
    ensures { OnOk result (works.new.items ≡ works.old.items ++ visits args.now) }
{
    let mut left = args.len();
    while left > 0 {
        left -= 1;
        works.push(Work::Visit(args[left]))?;
    }
    Ok(())
}

// Puts the arguments of a term in front of all other works, and behind them the term itself.
fn open(terms: &Terms, t: TermId, works: &mut Vec<Work>) -> Result<(), AllocError>
    requires { t.0 < length terms.now.nodes }
    ensures { OnOk result
        (works.new.items ≡ (works.old.items ++ Work.Finish t ∷ []) ++ visits (args_at terms.now t)) }
{
    works.push(Work::Finish(t))?;
    push_visits(works, terms.node(t).args.as_slice())
}

// Goes to a term.
fn visit(terms: &Terms, t: TermId, works: &mut Vec<Work>, images: &Images) -> Result<(), AllocError>
    requires { t.0 < length terms.now.nodes }
    ensures { OnOk result (Visits terms.now t images.now works.old.items works.new.items) }
{
    match images.get(t) {
        Some(_) => Ok(()),
        None => open(terms, t, works),
    }
}

// Makes the image of a term whose arguments have theirs.
fn finish(terms: &mut Terms, alloc: Global, t: TermId, images: &mut Images) -> Result<(), TermFault>
    requires in_range { t.0 < length terms.old.nodes }
    requires images { ImagesFit terms.old images.old }
    ensures made { OnOk result (Finishes terms.old t images.old terms.new images.new) }
    ensures grows { Extends terms.old terms.new }
    ensures only { AddsOnly terms.old terms.new (over_images terms.old images.old t) }
    ensures size { result ≡ Err Size → Lacks terms.new (over_images terms.old images.old t) }
{
    terms.law_arena();
    let node = terms.node(t);
    let head = node.head;
    let args = images.all(alloc, node.args.as_slice())?;
    let image = terms.make(head, args.as_slice())?;
    images.put(t, image)?;
    Ok(())
}

// Does one work.
pub(crate) fn step(
    terms: &mut Terms,
    alloc: Global,
    work: Work,
    works: &mut Vec<Work>,
    images: &mut Images,
) -> Result<(), TermFault>
    requires in_range { (id_of work).0 < length terms.old.nodes }
    requires images { ImagesFit terms.old images.old }
    ensures step { OnOk result
        (Steps terms.old work works.old.items images.old terms.new works.new.items images.new) }
    ensures grows { Extends terms.old terms.new }
    ensures only { AddsFor terms.old images.old terms.new work }
    ensures size { result ≡ Err Size → LacksFor terms.old images.old terms.new work }
{
    match work {
        Work::Visit(t) => {
            visit(terms, t, works, images)?;
            Ok(())
        }
        Work::Finish(t) => finish(terms, alloc, t, images),
    }
}
