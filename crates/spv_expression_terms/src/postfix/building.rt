// A term from its pieces.

ghost use Rattle.std.specs.Prelude.{◌≡◌, ◌<◌, ◌≤◌, [], ◌∷◌, ◌++◌, length, map, take, Err, Some, IfOk, OnOk};
ghost use Rattle.spv_logic.specs.Terms.{Term};
ghost use Rattle.spv_logic.specs.Sorts.{term_sort};
ghost use Rattle.spv_term.specs.declared.nodes.TermFault.TheVariants.{Size};
ghost use Rattle.spv_term.specs.Arena.{AllBelow, tree, sort_at, Extends};
ghost use Rattle.spv_term.specs.substitution.Parts.{AddsParts, LacksPart, AddsOnly, Lacks};
ghost use Rattle.spv_expression_terms.specs.postfix.Postfix.{postfix, IsMakeable, IsPostfix};
ghost use Rattle.spv_expression_terms.specs.postfix.Stack.{over_last, Applies};

use crate::postfix::pieces::Piece;
use spv_term::{TermFault, TermId, Terms};
use std::alloc::{AllocError, Global};

// Keeps the first ids of a stack and puts one behind them.
fn put_over(stack: &mut Vec<TermId>, kept: usize, last: TermId) -> Result<(), AllocError>
    ensures { OnOk result (stack.new.items ≡ take kept stack.old.items ++ last ∷ []) }
{
    stack.truncate(kept);
    stack.push(last)?;
    Ok(())
}

// Puts the term of a head over the last terms of a stack in their place.
fn apply(terms: &mut Terms, piece: Piece, stack: &mut Vec<TermId>) -> Result<(), TermFault>
    requires count { piece.count ≤ length stack.old.items }
    requires stack { AllBelow (length terms.old.nodes) stack.old.items }
    requires makeable { IsMakeable terms.old.shapes terms.old.decls
        (over_last piece (map (tree terms.old) stack.old.items)) }
    ensures applied { OnOk result (Applies piece terms.old stack.old.items terms.new stack.new.items) }
    ensures grows { Extends terms.old terms.new }
    ensures only { AddsOnly terms.old terms.new (over_last piece (map (tree terms.old) stack.old.items)) }
    ensures size { result ≡ Err Size → Lacks terms.new (over_last piece (map (tree terms.old) stack.old.items)) }
{
    terms.law_arena();
    let items = stack.as_slice();
    let rest = items.len() - piece.count;
    let made = terms.make(piece.head, &items[rest..])?;
    put_over(stack, rest, made)?;
    Ok(())
}

/// The term whose pieces these are: each piece's head over the last of the terms so far that it stands
/// over. Each piece costs its arguments. `Size` comes only where the arena is full and a part of the
/// term is not there; nothing but parts of it is added, also before an error.
pub fn built(terms: &mut Terms, alloc: Global, pieces: &[Piece]) -> Result<TermId, TermFault>
    requires { IsPostfix terms.old.shapes terms.old.decls pieces.now }
    ensures tree { IfOk result (λ u. (t : Term) → pieces.now ≡ postfix t → tree terms.new u ≡ t) }
    ensures sort { IfOk result (λ u. (t : Term) → pieces.now ≡ postfix t
        → term_sort terms.old.shapes terms.old.decls t ≡ Some (sort_at terms.new u)) }
    ensures in_range { IfOk result (λ u. u.0 < length terms.new.nodes) }
    ensures grows { Extends terms.old terms.new }
    ensures only { (t : Term) → pieces.now ≡ postfix t → AddsParts terms.old terms.new (t ∷ []) }
    ensures size { (t : Term) → pieces.now ≡ postfix t → result ≡ Err Size → LacksPart terms.new (t ∷ []) }
{
    let mut stack = Vec::new(alloc);
    for piece in pieces {
        apply(terms, *piece, &mut stack)?;
    }
    terms.law_arena();
    Ok(stack[0])
}
