// A proof of a listing as one over an arena.

ghost use Rattle.std.specs.Prelude.{◌≡◌, ◌<◌, ◌++◌, ℕ, List, [], ◌∷◌, true, OnOk, IfOk, IfSome, IsTrue, length, map, option_map};
ghost use Rattle.std.specs.List.{list_all};
ghost use Rattle.spv_term.specs.Arena.{AllBelow, tree};
ghost use Rattle.spv_atoms.specs.Shape.{is_tree};
ghost use Rattle.spv_listing_values.specs.Mapped.{step_at, node_at, split_terms};
ghost use Rattle.spv_listing_values.specs.declared.data.Step.TheVariants as says;
ghost use Rattle.spv_listing_values.specs.Places.{AreBefore};
ghost use Rattle.spv_rechecking.specs.Parts.{are_placed, are_trees, counts, has_cases};
ghost use Rattle.spv_rechecking.specs.Made.{images_at};
ghost use Rattle.spv_rechecking.specs.Converted.{relation_over, term_at, IsRelationOf, IsStepOf, IsSplitOf, AreStepsOf, AreNodesOf, IsNodeOf, StepPlaced, StepsPlaced, NodesPlaced};

use crate::making::{id_at, ids_at};
use crate::parts::parts_of;
use crate::written_terms::symbol_for;
use spv_atoms::{Proof, ProofNode, Relation, Split, Stated, Step};
use spv_frac::Frac;
use spv_listing_values::data;
use spv_listing_values::texts::Text;
use spv_logic::list::List;
use spv_logic::names::{Names, Symbol};
use spv_term::{Head, TermId, Terms};
use std::alloc::{AllocError, Global};

// The relation that a head makes of two terms.
fn relation_over(head: Head, left: TermId, right: TermId) -> Option<Relation>
    ensures { result ≡ relation_over head left right }
{
    match head {
        Head::Eq => Some(Relation::Equal(left, right)),
        Head::Le => Some(Relation::AtMost(left, right)),
        _ => None,
    }
}

// The relation that a term is.
fn relation_of(terms: &Terms, t: TermId) -> Option<Relation>
    requires { t.0 < length terms.now.nodes }
    ensures { IsRelationOf terms.now (tree terms.now t) result }
{
    terms.law_arena();
    let node = terms.node(t);
    let args = node.args.as_slice();
    if args.len() != 2 {
        return None;
    }
    relation_over(node.head, args[0], args[1])
}

// The same numbers once more.
fn numbers(alloc: Global, list: &List<u32>) -> Result<List<u32>, AllocError>
    ensures { IfOk result (λ copy. copy ≡ list.now) }
{
    Ok(List::from_vec(Vec::from_slice(alloc, list.as_slice())?))
}

// The same multiples once more.
fn multiples(alloc: Global, list: &List<(Frac, u32)>) -> Result<List<(Frac, u32)>, AllocError>
    ensures { IfOk result (λ copy. copy ≡ list.now) }
{
    let mut copy = Vec::new(alloc);
    for multiple in list.as_slice() {
        copy.push(*multiple)?;
    }
    Ok(List::from_vec(copy))
}

// A sum of multiples of facts, of what is a relation.
fn linear_of(
    alloc: Global,
    terms: &Terms,
    t: TermId,
    first: &List<(Frac, u32)>,
    second: &List<(Frac, u32)>,
) -> Result<Option<Step>, AllocError>
    requires { t.0 < length terms.now.nodes }
    ensures { IfOk result (λ s. (names : List (List ℕ)) → IsStepOf names terms.now (says.Linear (tree terms.now t) first.now second.now) s) }
{
    match relation_of(terms, t) {
        Some(relation) => {
            let first = multiples(alloc, first)?;
            let second = multiples(alloc, second)?;
            Ok(Some(Step::Linear(relation, first, second)))
        }
        None => Ok(None),
    }
}

// A fact of a schema, about a field of the program where it names one.
fn schema_of(
    alloc: Global,
    terms: &Terms,
    names: &Names,
    kind: u8,
    ids: Vec<TermId>,
    name: &Option<List<u8>>,
) -> Result<Option<Step>, AllocError>
    requires { AllBelow (length terms.now.nodes) ids.items }
    ensures { IfOk result (λ s. IsStepOf names.now terms.now (says.Schema kind (map (tree terms.now) ids.items) name.now) s) }
{
    let _ = alloc;
    let _ = terms;
    match name {
        None => Ok(Some(Step::Schema(kind, List::from_vec(ids), None))),
        Some(name) => match symbol_for(names, name.as_slice()) {
            Some(field) => Ok(Some(Step::Schema(kind, List::from_vec(ids), Some(field)))),
            None => Ok(None),
        },
    }
}

// A step over the terms of an arena.
fn step_of(
    alloc: Global,
    terms: &Terms,
    names: &Names,
    images: &[TermId],
    step: &data::Step<Text>,
) -> Result<Option<Step>, AllocError>
    requires images { AllBelow (length terms.now.nodes) images.now }
    requires placed { StepPlaced (length images.now) step.now }
    ensures { IfOk result (λ s. IsStepOf names.now terms.now (step_at (term_at terms.now images.now) step.now) s) }
{
    match step {
        data::Step::Given(number) => Ok(Some(Step::Given(*number))),
        data::Step::Refl(t) => Ok(Some(Step::Refl(id_at(images, *t)))),
        data::Step::Symm(fact) => Ok(Some(Step::Symm(*fact))),
        data::Step::Trans(first, second) => Ok(Some(Step::Trans(*first, *second))),
        data::Step::Cong(t, u, facts) => {
            let facts = numbers(alloc, facts)?;
            Ok(Some(Step::Cong(id_at(images, *t), id_at(images, *u), facts)))
        }
        data::Step::Linear(t, first, second) => linear_of(
            alloc,
            terms,
            id_at(images, *t),
            first,
            second,
        ),
        data::Step::Schema(kind, list, name) => {
            let ids = ids_at(alloc, images, list.as_slice())?;
            schema_of(alloc, terms, names, *kind, ids, name)
        }
        data::Step::Rule(number, list) => {
            let ids = ids_at(alloc, images, list.as_slice())?;
            Ok(Some(Step::Rule(*number, List::from_vec(ids))))
        }
        data::Step::Eval(t, facts) => {
            let facts = numbers(alloc, facts)?;
            Ok(Some(Step::Eval(Stated::Is(id_at(images, *t), true), facts)))
        }
        data::Step::Contra(first, second) => Ok(Some(Step::Contra(*first, *second))),
    }
}

fn push_step(list: &mut Vec<Step>, one: Step) -> Result<(), AllocError>
    ensures { OnOk result (list.new.items ≡ list.old.items ++ one ∷ []) }
{
    list.push(one)?;
    Ok(())
}

// Steps over the terms of an arena.
fn steps_of(
    alloc: Global,
    terms: &Terms,
    names: &Names,
    images: &[TermId],
    steps: &[data::Step<Text>],
) -> Result<Option<List<Step>>, AllocError>
    requires images { AllBelow (length terms.now.nodes) images.now }
    requires placed { StepsPlaced (length images.now) steps.now }
    ensures { IfOk result (λ s. AreStepsOf names.now terms.now (map (step_at (term_at terms.now images.now)) steps.now) s) }
{
    let mut list = Vec::new(alloc);
    for place in 0..steps.len() {
        let made = step_of(alloc, terms, names, images, &steps[place])?;
        let Some(one) = made else {
            return Ok(None);
        };
        push_step(&mut list, one)?;
    }
    Ok(Some(List::from_vec(list)))
}

// A split over the terms of an arena, with these places of its cases.
fn split_of(images: &[TermId], split: &Option<data::Split<Text>>, parts: List<u32>) -> Option<Split>
    requires { AreBefore (length images.now) (split_terms split.now) }
    ensures { IsSplitOf images.now split.now parts result }
{
    match split {
        None => None,
        Some(split) => Some(Split {
            atom: id_at(images, split.atom),
            parts,
        }),
    }
}

// A node over the terms of an arena, with these places of its cases.
fn node_of(
    alloc: Global,
    terms: &Terms,
    names: &Names,
    images: &[TermId],
    node: &data::ProofNode<Text>,
    parts: &List<u32>,
) -> Result<Option<ProofNode>, AllocError>
    requires images { AllBelow (length terms.now.nodes) images.now }
    requires steps { StepsPlaced (length images.now) node.now.steps }
    requires split { AreBefore (length images.now) (split_terms node.now.split) }
    ensures { IfOk result (λ n. IsNodeOf names.now terms.now images.now node.now parts.now n) }
{
    let made = steps_of(alloc, terms, names, images, node.steps.as_slice())?;
    let Some(steps) = made else {
        return Ok(None);
    };
    let own = numbers(alloc, parts)?;
    let split = split_of(images, &node.split, own);
    Ok(Some(ProofNode { steps, split }))
}

fn push_node(list: &mut Vec<ProofNode>, one: ProofNode) -> Result<(), AllocError>
    ensures { OnOk result (list.new.items ≡ list.old.items ++ one ∷ []) }
{
    list.push(one)?;
    Ok(())
}

// The nodes of a proof over the terms of an arena, where each step is one over terms and each field a name of the program. A node is
// followed by its cases, whose places are these.
fn nodes_of(
    alloc: Global,
    terms: &Terms,
    names: &Names,
    images: &[TermId],
    nodes: &[data::ProofNode<Text>],
    parts: &[List<u32>],
) -> Result<Option<Vec<ProofNode>>, AllocError>
    requires images { AllBelow (length terms.now.nodes) images.now }
    requires placed { NodesPlaced (length images.now) nodes.now }
    requires cases { list_all has_cases nodes.now ≡ true }
    requires parts { are_placed 0 (0 ∷ []) (counts nodes.now) parts.now ≡ true }
    ensures nodes { IfOk result (λ list. AreNodesOf names.now terms.now (map (node_at (term_at terms.now images.now)) nodes.now) (option_map (λ l. l.items) list)) }
    ensures tree { IfOk result (λ list. IfSome list (λ l. IsTrue (is_tree l.items))) }
{
    let mut list = Vec::new(alloc);
    for place in 0..nodes.len() {
        let made = node_of(alloc, terms, names, images, &nodes[place], &parts[place])?;
        let Some(one) = made else {
            return Ok(None);
        };
        push_node(&mut list, one)?;
    }
    Ok(Some(list))
}

/// The proof of these nodes over the terms of an arena, where each step is one over terms and each field a name of the program.
pub(crate) fn proof_of(
    alloc: Global,
    terms: &Terms,
    names: &Names,
    images: &[TermId],
    nodes: &[data::ProofNode<Text>],
) -> Result<Option<Proof>, AllocError>
    requires images { AllBelow (length terms.now.nodes) images.now }
    requires placed { NodesPlaced (length images.now) nodes.now }
    requires cases { list_all has_cases nodes.now ≡ true }
    requires tree { are_trees 1 (counts nodes.now) ≡ true }
    ensures { IfOk result (λ proof. AreNodesOf names.now terms.now (map (node_at (term_at terms.now images.now)) nodes.now) proof) }
{
    if nodes.len() > u32::MAX as usize {
        return Err(AllocError);
    }
    let parts = parts_of(alloc, nodes)?;
    let made = nodes_of(alloc, terms, names, images, nodes, parts.as_slice())?;
    match made {
        Some(list) => Ok(Some(Proof::new(list))),
        None => Ok(None),
    }
}
