//! A term from its pieces.

ghost use Rattle.std.specs.Prelude.{◌≡◌, ◌<◌, ◌≤◌, [], ◌∷◌, ◌++◌, length, map, take, Ok, IfOk, OnOk, IfErr, IsSome, IsTrue};
ghost use Rattle.spv_logic.specs.Terms.{Term, term};
ghost use Rattle.spv_logic.specs.Sorts.{head_in_range, numeral_fits, result_sort};
ghost use Rattle.spv_term.specs.Arena.{AllBelow, sorts_at, tree, trees, trees_of, Extends};
ghost use Rattle.spv_proof_rules.specs.Stops.{all_kept, layers};
ghost use Rattle.spv_rules.specs.declared.making.pieces.Piece.TheVariants.{Over};
ghost use Rattle.spv_rules.specs.making.Pieces.{over, put, with_piece, MayPut, IsMadeFault, ArePieces, HaveTerm};

use crate::making::pieces::Piece;
use spv_logic::Head;
use spv_term::{TermFault, TermId, Terms};
use std::alloc::{AllocError, Global};

// Keeps the first ids of a stack and puts one behind them.
fn put_over(stack: &mut Vec<TermId>, kept: usize, last: TermId) -> Result<(), AllocError>
    ensures { OnOk result (stack.new.items ≡ take kept stack.old.items ++ last ∷ []) }
{
    stack.truncate(kept);
    stack.push(last)?;
    Ok(())
}

// Puts an id onto a stack.
fn put_last(stack: &mut Vec<TermId>, last: TermId) -> Result<(), AllocError>
    ensures { OnOk result (stack.new.items ≡ stack.old.items ++ last ∷ []) }
{
    stack.push(last)?;
    Ok(())
}

// Makes the term of a head over these.
fn make(terms: &mut Terms, head: Head, args: &[TermId]) -> Result<TermId, TermFault>
    requires args { AllBelow (length terms.old.nodes) args.now }
    requires sorts { IsSome (result_sort terms.old.shapes terms.old.decls head (sorts_at terms.old args.now)) }
    requires types { IsTrue (head_in_range terms.old.shapes head) }
    requires numeral { IsTrue (numeral_fits head) }
    ensures tree { IfOk result (λ t. tree terms.new t ≡ term head (trees terms.old args.now)) }
    ensures in_range { IfOk result (λ t. t.0 < length terms.new.nodes) }
    ensures all { OnOk result (all_kept terms.old.most (trees_of terms.old.nodes) (term head (trees terms.old args.now) ∷ []) ≡ Ok (trees_of terms.new.nodes)) }
    ensures fault { IfErr result (λ f. IsMadeFault terms.new f
        (all_kept terms.old.most (trees_of terms.old.nodes) (term head (trees terms.old args.now) ∷ []))) }
    ensures grows { Extends terms.old terms.new }
{
    terms.law_arena();
    terms.make(head, args)
}

// Puts the term of a head over the last terms of a stack in their place.
fn apply(
    terms: &mut Terms,
    head: Head,
    count: usize,
    stack: &mut Vec<TermId>,
) -> Result<(), TermFault>
    requires stack { AllBelow (length terms.old.nodes) stack.old.items }
    requires may { MayPut terms.old (map (tree terms.old) stack.old.items) (Over head count) }
    ensures trees { OnOk result (map (tree terms.new) stack.new.items ≡ put (tree terms.old) (map (tree terms.old) stack.old.items) (Over head count)) }
    ensures in_range { OnOk result (AllBelow (length terms.new.nodes) stack.new.items) }
    ensures all { OnOk result (all_kept terms.old.most (trees_of terms.old.nodes) (over head count (map (tree terms.old) stack.old.items) ∷ []) ≡ Ok (trees_of terms.new.nodes)) }
    ensures fault { IfErr result (λ f. IsMadeFault terms.new f
        (all_kept terms.old.most (trees_of terms.old.nodes) (over head count (map (tree terms.old) stack.old.items) ∷ []))) }
    ensures grows { Extends terms.old terms.new }
{
    terms.law_arena();
    let items = stack.as_slice();
    let rest = items.len() - count;
    let made = make(terms, head, &items[rest..])?;
    put_over(stack, rest, made)?;
    Ok(())
}

// Puts a piece onto a stack.
fn put(terms: &mut Terms, piece: Piece, stack: &mut Vec<TermId>) -> Result<(), TermFault>
    requires stack { AllBelow (length terms.old.nodes) stack.old.items }
    requires may { MayPut terms.old (map (tree terms.old) stack.old.items) piece }
    ensures trees { OnOk result (map (tree terms.new) stack.new.items ≡ put (tree terms.old) (map (tree terms.old) stack.old.items) piece) }
    ensures in_range { OnOk result (AllBelow (length terms.new.nodes) stack.new.items) }
    ensures all { OnOk result (all_kept terms.old.most (trees_of terms.old.nodes) (with_piece (tree terms.old) (map (tree terms.old) stack.old.items) piece) ≡ Ok (trees_of terms.new.nodes)) }
    ensures fault { IfErr result (λ f. IsMadeFault terms.new f
        (all_kept terms.old.most (trees_of terms.old.nodes) (with_piece (tree terms.old) (map (tree terms.old) stack.old.items) piece))) }
    ensures grows { Extends terms.old terms.new }
{
    match piece {
        Piece::Known(t) => {
            terms.law_arena();
            put_last(stack, t)?;
            Ok(())
        }
        Piece::Over(head, count) => apply(terms, head, count, stack),
    }
}

/// The term whose pieces these are, made behind its subterms. `Size` comes at the first of these that is new and has no room.
pub fn build(alloc: Global, terms: &mut Terms, pieces: &[Piece]) -> Result<TermId, TermFault>
    requires { HaveTerm terms.old pieces.now }
    ensures tree { IfOk result (λ u. (t : Term) → ArePieces terms.old pieces.now t → tree terms.new u ≡ t) }
    ensures in_range { IfOk result (λ u. u.0 < length terms.new.nodes) }
    ensures all { OnOk result ((t : Term) → ArePieces terms.old pieces.now t
        → all_kept terms.old.most (trees_of terms.old.nodes) (layers t) ≡ Ok (trees_of terms.new.nodes)) }
    ensures fault { IfErr result (λ f. (t : Term) → ArePieces terms.old pieces.now t
        → IsMadeFault terms.new f (all_kept terms.old.most (trees_of terms.old.nodes) (layers t))) }
    ensures grows { Extends terms.old terms.new }
{
    let mut stack = Vec::new(alloc);
    for piece in pieces {
        put(terms, *piece, &mut stack)?;
    }
    Ok(stack[0])
}
