// Titles: the first name of each type.

ghost use Rattle.std.specs.Prelude.{◌≡◌, IfOk, length, ◌∷◌};
ghost use Rattle.spv_typing.specs.Known.{boolean_type, integer_type};
ghost use Rattle.spv_typing.specs.ProgramWalk.{titles_from};
ghost use Rattle.spv_types.specs.Titles.{entitled, no_titles};

use spv_environments::KnownNames;
use spv_logic::TypeId;
use spv_logic::list::List;
use spv_logic::names::Symbol;
use spv_program::TypeForm;
use spv_program::ordered_map::Named;
use std::alloc::{AllocError, Global};

#[tactic(auto, using(crate::proofs::Entitling::none_entitled))]
fn entitle(titles: &mut Vec<Option<Symbol>>, x: Symbol, t: TypeId)
    ensures { titles.new.items ≡ entitled titles.old.items x t }
{
    let place = t.0 as usize;
    if place < titles.len() {
        titles[place] = Some(x);
    }
}

fn none_yet(alloc: Global, many: usize) -> Result<Vec<Option<Symbol>>, AllocError>
    ensures { IfOk result (λ v. v.items ≡ no_titles many) }
{
    vec![in alloc; None; many]
}

// The titles by the names of the TYPE part, from the last name on: what stands first stays.
#[tactic(auto, using(crate::proofs::Entitling::titles_begin, crate::proofs::Entitling::titles_next))]
fn titles_of_types(
    alloc: Global,
    types: &Named<TypeId>,
    forms: &[TypeForm],
) -> Result<Vec<Option<Symbol>>, AllocError>
    ensures { IfOk result (λ v. v.items ≡ titles_from types.now 0 forms.now) }
{
    let mut titles = none_yet(alloc, forms.len())?;
    for place in (0..types.len()).rev() {
        let (x, t) = types.entry(place).unwrap();
        entitle(&mut titles, x, *t);
    }
    Ok(titles)
}

/// The first name of each type, by its number; INTEGER and BOOLEAN have theirs from the start.
#[tactic(auto, using(crate::proofs::Entitling::title_first))]
pub(crate) fn titles(
    alloc: Global,
    start: &KnownNames,
    types: &Named<TypeId>,
    forms: &[TypeForm],
) -> Result<List<Option<Symbol>>, AllocError>
    ensures { IfOk result (λ l. l ≡ titles_from ((start.now.integer, integer_type) ∷ (start.now.boolean, boolean_type) ∷ types.now) 0 forms.now) }
{
    let mut titles = titles_of_types(alloc, types, forms)?;
    entitle(&mut titles, start.boolean, TypeId(1));
    entitle(&mut titles, start.integer, TypeId(0));
    Ok(List::from_vec(titles))
}
