// The heads of the terms that the texts of a listing stand for.

ghost use Rattle.std.specs.Prelude.{◌≡◌, ◌∷◌, [], ◌++◌, ◌<◌, ◌≤◌, ◌^◌, ℕ, Some, None, IfOk, IfSome, IfNone, MatchOption, OnOk, length, map, take};
ghost use Rattle.std.specs.Option.{option_map};
ghost use Rattle.spv_logic.specs.Sorts as sorts_spec;
ghost use Rattle.spv_listing_values.specs.Places.{AreBefore, IsTable, flat_in, tree, trees};
ghost use Rattle.spv_rechecking.specs.written_terms.Standing as spec;
ghost use Rattle.spv_rechecking.specs.written_terms.Leaves.{HaveLeaves};
ghost use Rattle.spv_rechecking.specs.written_terms.Words.{words, vocabulary};
ghost use Rattle.spv_rechecking.specs.written_terms.Read.{AreRead, HeadsAre, IsOne, sorts_of};

use crate::written_terms::heads::head_for;
use crate::written_terms::leaves::Leaves;
use crate::written_terms::sorts::{may_stand, result_sort};
use spv_listing_values::texts::{Text, Texts};
use spv_logic::list::List;
use spv_logic::names::{Names, Symbol};
use spv_term::{Decl, Head, Shape, Sort};
use std::alloc::{AllocError, Global};

// A head, and the sort of the term under it.
#[derive(Clone, Copy)]
pub(crate) struct One {
    head: Head,
    sort: Sort,
}

// The sorts at these places.
fn sorts_at(alloc: Global, sorts: &[Sort], args: &[Text]) -> Result<Vec<Sort>, AllocError>
    requires { AreBefore (length sorts.now) args.now }
    ensures { IfOk result (λ list. list.items ≡ sorts_of sorts.now args.now) }
{
    let mut list = Vec::new(alloc);
    for arg in args {
        list.push(sorts[arg.0 as usize])?;
    }
    Ok(list)
}

// The sort of a head over arguments of these sorts, if it may stand there.
fn sort_over(shapes: &[Shape], decls: &[Decl], head: Head, given: &[Sort]) -> Option<Sort>
    ensures { result ≡ spec.sort_over shapes.now decls.now head given.now }
{
    if may_stand(shapes, head) {
        return result_sort(shapes, decls, head, given);
    }
    None
}

// The head and the sort of the term that a text stands for, where its arguments have these sorts.
fn read_one(
    names: &Names,
    titles: &[Option<Symbol>],
    leaves: &Leaves,
    shapes: &[Shape],
    decls: &[Decl],
    texts: &Texts,
    t: Text,
    given: &[Sort],
) -> Option<One>
    requires leaves { HaveLeaves names.now titles.now leaves.now }
    requires few { length titles.now ≤ 2 ^ 32 }
    requires t { t.0 < length texts.now }
    ensures { IsOne shapes.now decls.now (spec.head_for (words names.now titles.now leaves.now) (flat_in texts.now t).head) given.now result }
{
    match head_for(names, titles, leaves, texts.head(t)) {
        Some(head) => match sort_over(shapes, decls, head, given) {
            Some(sort) => Some(One { head, sort }),
            None => None,
        },
        None => None,
    }
}

// Adds a head and a sort.
fn push(heads: &mut Vec<Head>, sorts: &mut Vec<Sort>, one: One) -> Result<(), AllocError>
    ensures heads { OnOk result (heads.new.items ≡ heads.old.items ++ one.head ∷ []) }
    ensures sorts { OnOk result (sorts.new.items ≡ sorts.old.items ++ one.sort ∷ []) }
{
    heads.push(one.head)?;
    sorts.push(one.sort)?;
    Ok(())
}

/// The text at a place. More than 4294967296 of them would take more memory than there is.
pub fn text_at(place: usize) -> Result<Text, AllocError>
    ensures { IfOk result (λ t. t.0 ≡ place) }
{
    if place >= 4294967296 {
        return Err(AllocError);
    }
    Ok(Text(place as u32))
}

/// The heads of the terms that the texts of a listing stand for, one for each; none where one of them stands for no term.
pub fn heads_of(
    alloc: Global,
    names: &Names,
    titles: &[Option<Symbol>],
    leaves: &Leaves,
    shapes: &[Shape],
    decls: &[Decl],
    texts: &Texts,
) -> Result<Option<Vec<Head>>, AllocError>
    requires leaves { HaveLeaves names.now titles.now leaves.now }
    requires few { length titles.now ≤ 2 ^ 32 }
    ensures { IfOk result (λ heads. HeadsAre (vocabulary names.now titles.now leaves.now shapes.now decls.now) (trees texts.now) (option_map (λ l. l.items) heads)) }
{
    texts.law_texts();
    let mut heads = Vec::new(alloc);
    let mut sorts = Vec::new(alloc);
    for place in 0..texts.len() {
        let t = text_at(place)?;
        let own = texts.args(t);
        let given = sorts_at(alloc, sorts.as_slice(), own)?;
        let read = read_one(
            names,
            titles,
            leaves,
            shapes,
            decls,
            texts,
            t,
            given.as_slice(),
        );
        let Some(one) = read else {
            return Ok(None);
        };
        push(&mut heads, &mut sorts, one)?;
    }
    Ok(Some(heads))
}
