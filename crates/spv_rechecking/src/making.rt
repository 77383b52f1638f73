// The terms that texts stand for, made in an arena.

ghost use Rattle.std.specs.Prelude.{◌≡◌, ◌<◌, ◌++◌, [], ◌∷◌, map, take, length, slice_get, Some, Err, IfOk, OnOk};
ghost use Rattle.spv_term.specs.declared.nodes.TermFault.TheVariants.{Size};
ghost use Rattle.spv_term.specs.Arena.{AllBelow, tree, Extends};
ghost use Rattle.spv_search_terms.specs.subterms.Gaining.{Gains, Stops};
ghost use Rattle.spv_listing_values.specs.Places.{AreBefore, IsTable, trees, tree as text_tree};
ghost use Rattle.spv_rechecking.specs.Rechecked.{term_of};
ghost use Rattle.spv_rechecking.specs.Made.{vocabulary_in, image_at, images_at, AreHeads, AreImages};

use crate::written_terms::{Leaves, text_at};
use spv_listing_values::texts::{Text, Texts};
use spv_logic::names::{Names, Symbol};
use spv_search_terms::subterms::made;
use spv_term::{Head, TermFault, TermId, Terms};
use std::alloc::{AllocError, Global};

/// The id at a place.
pub(crate) fn id_at(images: &[TermId], place: Text) -> TermId
    requires { place.0 < length images.now }
    ensures { result ≡ image_at images.now place }
{
    images[place.0 as usize]
}

/// The ids at these places.
pub(crate) fn ids_at(
    alloc: Global,
    images: &[TermId],
    places: &[Text],
) -> Result<Vec<TermId>, AllocError>
    requires { AreBefore (length images.now) places.now }
    ensures { IfOk result (λ ids. ids.items ≡ images_at images.now places.now) }
{
    let mut ids = Vec::new(alloc);
    for place in places {
        ids.push(id_at(images, *place))?;
    }
    Ok(ids)
}

// The head at a place.
fn head_at(heads: &[Head], t: Text) -> Head
    requires { t.0 < length heads.now }
    ensures { slice_get heads.now t.0 ≡ Some result }
{
    heads[t.0 as usize]
}

// Makes the term of a text whose arguments have theirs.
fn make_one(
    alloc: Global,
    names: &Names,
    titles: &[Option<Symbol>],
    leaves: &Leaves,
    texts: &Texts,
    heads: &[Head],
    images: &[TermId],
    t: Text,
    terms: &mut Terms,
) -> Result<TermId, TermFault>
    requires t { t.0 < length texts.now }
    requires heads { AreHeads (vocabulary_in names.now titles.now leaves.now terms.old) (trees texts.now) heads.now }
    requires count { length images.now ≡ t.0 }
    requires images { map (tree terms.old) images.now ≡ map (term_of (vocabulary_in names.now titles.now leaves.now terms.old)) (take t.0 (trees texts.now)) }
    requires in_range { AllBelow (length terms.old.nodes) images.now }
    ensures gains { OnOk result (Gains terms.old terms.new (term_of (vocabulary_in names.now titles.now leaves.now terms.old) (text_tree texts.now t) ∷ [])) }
    ensures tree { IfOk result (λ u. tree terms.new u ≡ term_of (vocabulary_in names.now titles.now leaves.now terms.old) (text_tree texts.now t)) }
    ensures in_range { IfOk result (λ u. u.0 < length terms.new.nodes) }
    ensures grows { Extends terms.old terms.new }
    ensures size { result ≡ Err Size → Stops terms.old (term_of (vocabulary_in names.now titles.now leaves.now terms.old) (text_tree texts.now t) ∷ []) }
{
    let _ = names;
    let _ = titles;
    let _ = leaves;
    terms.law_arena();
    texts.law_texts();
    let own = texts.args(t);
    let args = ids_at(alloc, images, own)?;
    let head = head_at(heads, t);
    made(terms, head, args.as_slice())
}

fn push(images: &mut Vec<TermId>, one: TermId) -> Result<(), AllocError>
    ensures { OnOk result (images.new.items ≡ images.old.items ++ one ∷ []) }
{
    images.push(one)?;
    Ok(())
}

/// Makes the terms that texts stand for, in order: their ids, one for each. `Size` comes only where the arena has no room for one of them.
pub(crate) fn make_all(
    alloc: Global,
    names: &Names,
    titles: &[Option<Symbol>],
    leaves: &Leaves,
    texts: &Texts,
    heads: &[Head],
    terms: &mut Terms,
) -> Result<Vec<TermId>, TermFault>
    requires { AreHeads (vocabulary_in names.now titles.now leaves.now terms.old) (trees texts.now) heads.now }
    ensures gains { OnOk result (Gains terms.old terms.new (map (term_of (vocabulary_in names.now titles.now leaves.now terms.old)) (trees texts.now))) }
    ensures images { IfOk result (λ images. AreImages (vocabulary_in names.now titles.now leaves.now terms.old) terms.new (trees texts.now) images.items) }
    ensures grows { Extends terms.old terms.new }
    ensures size { result ≡ Err Size → Stops terms.old (map (term_of (vocabulary_in names.now titles.now leaves.now terms.old)) (trees texts.now)) }
{
    let mut images = Vec::new(alloc);
    for place in 0..texts.len() {
        let t = text_at(place)?;
        let one = make_one(
            alloc,
            names,
            titles,
            leaves,
            texts,
            heads,
            images.as_slice(),
            t,
            terms,
        )?;
        push(&mut images, one)?;
    }
    Ok(images)
}
