//! The pieces of a term of another arena, in which ids stand in the place of variables.

ghost use Rattle.std.specs.Prelude.{◌≡◌, ◌<◌, ◌++◌, [], ◌∷◌, length, map, OnOk, IfOk};
ghost use Rattle.spv_logic.specs.Terms.{head_eq};
ghost use Rattle.spv_term.specs.Arena.{AllBelow, tree};
ghost use Rattle.spv_term.specs.substitution.Images.{head_at};
ghost use Rattle.spv_rules.specs.making.Sketching as spec;
ghost use Rattle.spv_rules.specs.making.Sketching.{visits, WorkIn, WorksIn, Inside, IsStep, pieces_of};

use crate::making::pieces::Piece;
use spv_logic::Head;
use spv_term::{TermId, Terms};
use std::alloc::{AllocError, Global};

/// What is still to be written.
#[derive(Clone, Copy, Debug)]
pub(crate) enum Work {
    /// A term.
    Visit(TermId),
    /// A head over so many terms, which are written.
    Place(Head, usize),
}

// Whether two heads are the same.
fn same_head(left: Head, right: Head) -> bool
    ensures { result ≡ head_eq left right }
{
    left == right
}

// The id that stands in the place of a head.
fn id_for(from: &Terms, variables: &[TermId], values: &[TermId], head: Head) -> Option<TermId>
    requires variables { AllBelow (length from.now.nodes) variables.now }
    requires lengths { length variables.now ≡ length values.now }
    ensures { result ≡ spec.id_for (map (head_at from.now) variables.now) values.now head }
{
    from.law_arena();
    for k in 0..variables.len() {
        if same_head(from.node(variables[k]).head, head) {
            return Some(values[k]);
        }
    }
    None
}

// Puts visits of terms in front of all other works, the first of them first.
fn push_visits(works: &mut Vec<Work>, args: &[TermId]) -> Result<(), AllocError>
    ensures { OnOk result (works.new.items ≡ works.old.items ++ visits args.now) }
{
    let mut left = args.len();
    while left > 0 {
        left -= 1;
        works.push(Work::Visit(args[left]))?;
    }
    Ok(())
}

// Puts the head of a term and visits of its arguments in front of all other works.
fn open(from: &Terms, t: TermId, works: &mut Vec<Work>) -> Result<(), AllocError>
    requires { t.0 < length from.now.nodes }
    ensures { OnOk result (Inside from.now t works.old.items works.new.items) }
{
    let node = from.node(t);
    let args = node.args.as_slice();
    works.push(Work::Place(node.head, args.len()))?;
    push_visits(works, args)
}

// Puts a piece behind the others.
fn write(out: &mut Vec<Piece>, piece: Piece) -> Result<(), AllocError>
    ensures { OnOk result (out.new.items ≡ out.old.items ++ piece ∷ []) }
{
    out.push(piece)?;
    Ok(())
}

// Writes an id that stands in the place of a term's head; else the term is opened.
fn visit(
    from: &Terms,
    variables: &[TermId],
    values: &[TermId],
    t: TermId,
    works: &mut Vec<Work>,
    out: &mut Vec<Piece>,
) -> Result<(), AllocError>
    requires variables { AllBelow (length from.now.nodes) variables.now }
    requires lengths { length variables.now ≡ length values.now }
    requires t { t.0 < length from.now.nodes }
    requires works { WorksIn from.now works.old.items }
    ensures { OnOk result (IsStep (spec.id_for (map (head_at from.now) variables.now) values.now) from.now
        (Work.Visit t) works.old.items out.old.items works.new.items out.new.items) }
{
    from.law_arena();
    match id_for(from, variables, values, from.node(t).head) {
        Some(u) => write(out, Piece::Known(u)),
        None => open(from, t, works),
    }
}

// Does one work.
fn step(
    from: &Terms,
    variables: &[TermId],
    values: &[TermId],
    work: Work,
    works: &mut Vec<Work>,
    out: &mut Vec<Piece>,
) -> Result<(), AllocError>
    requires variables { AllBelow (length from.now.nodes) variables.now }
    requires lengths { length variables.now ≡ length values.now }
    requires work { WorkIn from.now work }
    requires works { WorksIn from.now works.old.items }
    ensures { OnOk result (IsStep (spec.id_for (map (head_at from.now) variables.now) values.now) from.now
        work works.old.items out.old.items works.new.items out.new.items) }
{
    match work {
        Work::Visit(t) => visit(from, variables, values, t, works, out),
        Work::Place(head, count) => write(out, Piece::Over(head, count)),
    }
}

/// The pieces of a term of an arena in which ids stand in the place of variables, each in the place of its own.
pub(crate) fn sketch(
    alloc: Global,
    from: &Terms,
    variables: &[TermId],
    values: &[TermId],
    t: TermId,
) -> Result<Vec<Piece>, AllocError>
    requires variables { AllBelow (length from.now.nodes) variables.now }
    requires lengths { length variables.now ≡ length values.now }
    requires t { t.0 < length from.now.nodes }
    ensures { IfOk result (λ pieces. pieces.items
        ≡ pieces_of (spec.id_for (map (head_at from.now) variables.now) values.now) (tree from.now t)) }
{
    from.law_arena();
    let mut out = Vec::new(alloc);
    let mut works = Vec::new(alloc);
    works.push(Work::Visit(t))?;
    while let Some(work) = works.pop() {
        step(from, variables, values, work, &mut works, &mut out)?;
    }
    Ok(out)
}
