//! The instances of schemas about used terms.

ghost use Rattle.std.specs.Prelude.{◌≡◌, ◌<◌, [], ◌∷◌, ◌++◌, None, Some, IfOk, OnOk, length, map, filter, is_some};
ghost use Rattle.std.specs.List.{flat_map};
ghost use Rattle.spv_schemas.specs.declared.kinds.SchemaKind.TheVariants.{FieldPutOther};
ghost use Rattle.spv_schemas.specs.Facts.{schema_fact};
ghost use Rattle.spv_schemas.specs.Instances.{fields_for, instances_of, names_in, schemas};
ghost use Rattle.spv_schemas.specs.Laws.{FactsAreWhereSortsFit};
ghost use Rattle.spv_term.specs.Arena.{AllBelow, IsArena, sort_at, tree};
ghost use Rattle.spv_proof.specs.schema_facts.Instances.{Adds, AllIn, instance, instance_in, instances_at, is_instance, pair};
ghost use Rattle.spv_proof.specs.schema_facts.Uses.{AreUses, AllLinksIn, subject_of};

use crate::schema_facts::groups::Link;
use crate::schema_facts::kinds::{kind_of, of_kind};
use crate::schema_facts::uses::{Subject, Uses, subject_for};
use spv_logic::list::List;
use spv_logic::names::Symbol;
use spv_logic::{Field, Shape, Sort};
use spv_schemas::SchemaKind;
use spv_schemas::laws::law_sorts_that_fit;
use spv_term::{TermId, Terms};
use std::alloc::{AllocError, Global};

/// An instance of a schema: its kind, the terms of an arena that it is about, and for one kind a field.
#[derive(Debug, Drop)]
pub struct Instance {
    pub kind: SchemaKind,
    pub about: List<TermId>,
    pub field: Option<Symbol>,
}

// Whether there is a fact of this kind.
fn has_fact(terms: &Terms, kind: SchemaKind, ts: &[TermId], field: Option<Symbol>) -> bool
    requires { AllBelow (length terms.now.nodes) ts.now }
    ensures { result ≡ is_some (schema_fact terms.now.shapes terms.now.decls kind (map (tree terms.now) ts.now) field) }
{
    law_sorts_that_fit();
    of_kind(terms, kind, ts, field).is_some()
}

// An instance more, where there is a fact.
fn add(
    found: &mut Vec<Instance>,
    terms: &Terms,
    kind: SchemaKind,
    ts: &[TermId],
    field: Option<Symbol>,
) -> Result<(), AllocError>
    requires { AllBelow (length terms.now.nodes) ts.now }
    ensures { OnOk result (Adds terms.now found.old.items found.new.items
        (filter (is_instance terms.now) (instance kind (map (tree terms.now) ts.now) field ∷ []))) }
{
    if !has_fact(terms, kind, ts, field) {
        return Ok(());
    }
    let about = List::from_vec(Vec::from_slice(*found.allocator(), ts)?);
    found.push(Instance { kind, about, field })?;
    Ok(())
}

// The instances about a term and each of these.
fn add_pairs(
    found: &mut Vec<Instance>,
    terms: &Terms,
    kind: SchemaKind,
    first: TermId,
    links: &[Link],
) -> Result<(), AllocError>
    requires first { first.0 < length terms.now.nodes }
    requires links { AllLinksIn terms.now links.now }
    ensures { OnOk result (Adds terms.now found.old.items found.new.items
        (filter (is_instance terms.now) (map (pair terms.now kind first) links.now))) }
{
    for link in links {
        add(found, terms, kind, &[first, link.member], None)?;
    }
    Ok(())
}

// The fields of a record.
fn fields(terms: &Terms, whole: TermId) -> &[Field]
    requires { whole.0 < length terms.now.nodes }
    ensures { map (λ field. Some field.name) result.now ≡ names_in terms.now.shapes (Some (sort_at terms.now whole)) }
{
    terms.law_arena();
    match terms.sort(whole) {
        Sort::Whole(t) => match terms.shapes().get(t) {
            Shape::Record(fields) => fields.as_slice(),
            _ => &[],
        },
        _ => &[],
    }
}

// The instances about a term and another field than the one that it changes.
fn add_fields(found: &mut Vec<Instance>, terms: &Terms, changed: TermId) -> Result<(), AllocError>
    requires { changed.0 < length terms.now.nodes }
    ensures { OnOk result (Adds terms.now found.old.items found.new.items
        (filter (is_instance terms.now) (map (instance FieldPutOther (tree terms.now changed ∷ []))
        (names_in terms.now.shapes (Some (sort_at terms.now changed)))))) }
{
    let kind = SchemaKind::FieldPutOther;
    for field in fields(terms, changed) {
        add(found, terms, kind, &[changed], Some(field.name))?;
    }
    Ok(())
}

// The instances of a kind about a first term.
fn add_first(
    found: &mut Vec<Instance>,
    terms: &Terms,
    uses: &Uses,
    kind: SchemaKind,
    first: TermId,
) -> Result<(), AllocError>
    requires uses { AreUses terms.now uses.now }
    requires first { first.0 < length terms.now.nodes }
    ensures { OnOk result (Adds terms.now found.old.items found.new.items
        (instances_at terms.now (map (tree terms.now) uses.now.ids.items) kind (tree terms.now first))) }
{
    terms.law_arena();
    let subject = subject_for(kind);
    match subject {
        Subject::Any => add(found, terms, kind, &[first], None),
        Subject::Field => add_fields(found, terms, first),
        Subject::TakenApart => {
            if uses.takes_apart(terms, first) {
                add(found, terms, kind, &[first], None)
            } else {
                Ok(())
            }
        }
        _ => {
            let links = uses.partners(terms, subject, first);
            add_pairs(found, terms, kind, first, links)
        }
    }
}

// The instances of a kind.
fn add_kind(
    found: &mut Vec<Instance>,
    terms: &Terms,
    uses: &Uses,
    kind: SchemaKind,
) -> Result<(), AllocError>
    requires { AreUses terms.now uses.now }
    ensures { OnOk result (Adds terms.now found.old.items found.new.items
        (instances_of terms.now.shapes terms.now.decls (map (tree terms.now) uses.now.ids.items) kind)) }
{
    for first in uses.ids() {
        add_first(found, terms, uses, kind, *first)?;
    }
    Ok(())
}

/// The instances of all schemas about used terms: by kind, then by the places of their terms, then by the place of the field; none
/// twice where no used term is.
pub fn instances(
    alloc: Global,
    terms: &Terms,
    used: &[TermId],
) -> Result<List<Instance>, AllocError>
    requires { AllBelow (length terms.now.nodes) used.now }
    ensures list { IfOk result (λ found. map (instance_in terms.now) found
        ≡ schemas terms.now.shapes terms.now.decls (map (tree terms.now) used.now)) }
    ensures in_range { IfOk result (AllIn terms.now) }
{
    let uses = Uses::new(alloc, terms, used)?;
    let mut found = Vec::new(alloc);
    for number in 1..21 {
        if let Some(kind) = kind_of(number) {
            add_kind(&mut found, terms, &uses, kind)?;
        }
    }
    Ok(List::from_vec(found))
}
