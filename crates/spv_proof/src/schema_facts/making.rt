//! Facts that are made in an arena.

ghost use Rattle.std.specs.Prelude.{◌≡◌, ◌<◌, length, map, Ok, IfOk, OnOk, IfErr, IfSome, IsSome};
ghost use Rattle.std.specs.Option.{option_map};
ghost use Rattle.spv_logic.specs.Sorts.{term_sort};
ghost use Rattle.spv_schemas.specs.Facts.{schema_fact};
ghost use Rattle.spv_schemas.specs.Laws.{FactsAreFormulas, FactsAreWhereSortsFit};
ghost use Rattle.spv_term.specs.Arena.{AllBelow, Extends, tree, trees_of};
ghost use Rattle.spv_proof_rules.specs.Stops.{all_kept, layers, layers_if};
ghost use Rattle.spv_proof.specs.schema_facts.Facts.{said, FactIn};
ghost use Rattle.spv_rules.specs.making.Pieces.{IsMadeFault};

use crate::schema_facts::facts::SchemaFact;
use crate::schema_facts::kinds::of_kind;
use crate::schema_facts::sketches::sketch;
use spv_logic::names::Symbol;
use spv_rules::making::build;
use spv_schemas::SchemaKind;
use spv_schemas::laws::{law_schema, law_sorts_that_fit};
use spv_term::{TermFault, TermId, Terms};
use std::alloc::Global;

// The term that a fact is, made behind its subterms.
fn made(alloc: Global, terms: &mut Terms, fact: SchemaFact) -> Result<TermId, TermFault>
    requires within { FactIn terms.old fact }
    requires sorted { IsSome (term_sort terms.old.shapes terms.old.decls (said (tree terms.old) fact)) }
    ensures tree { IfOk result (λ t. tree terms.new t ≡ said (tree terms.old) fact) }
    ensures in_range { IfOk result (λ t. t.0 < length terms.new.nodes) }
    ensures all { OnOk result (all_kept terms.old.most (trees_of terms.old.nodes) (layers (said (tree terms.old) fact)) ≡ Ok (trees_of terms.new.nodes)) }
    ensures fault { IfErr result (λ f. IsMadeFault terms.new f
        (all_kept terms.old.most (trees_of terms.old.nodes) (layers (said (tree terms.old) fact)))) }
    ensures grows { Extends terms.old terms.new }
{
    let pieces = sketch(alloc, fact)?;
    build(alloc, terms, pieces.as_slice())
}

/// The fact of a schema of this kind about terms, and for one kind about a field, made behind its subterms, arguments first: no other
/// term is made. None exactly where the terms lack the kind's shape, or their sorts do not fit it. `Size` comes exactly at the first of
/// these terms that is new where there may be no more; for want of memory the arena has some of those that come first.
pub fn fact(
    alloc: Global,
    terms: &mut Terms,
    kind: SchemaKind,
    ts: &[TermId],
    field: Option<Symbol>,
) -> Result<Option<TermId>, TermFault>
    requires { AllBelow (length terms.old.nodes) ts.now }
    ensures fact { IfOk result (λ fact. option_map (tree terms.new) fact
        ≡ schema_fact terms.old.shapes terms.old.decls kind (map (tree terms.old) ts.now) field) }
    ensures in_range { IfOk result (λ fact. IfSome fact (λ t. t.0 < length terms.new.nodes)) }
    ensures all { OnOk result (all_kept terms.old.most (trees_of terms.old.nodes)
        (layers_if (schema_fact terms.old.shapes terms.old.decls kind (map (tree terms.old) ts.now) field)) ≡ Ok (trees_of terms.new.nodes)) }
    ensures fault { IfErr result (λ f. IsMadeFault terms.new f (all_kept terms.old.most (trees_of terms.old.nodes)
        (layers_if (schema_fact terms.old.shapes terms.old.decls kind (map (tree terms.old) ts.now) field)))) }
    ensures grows { Extends terms.old terms.new }
{
    law_schema();
    law_sorts_that_fit();
    match of_kind(terms, kind, ts, field) {
        Some(fact) => Ok(Some(made(alloc, terms, fact)?)),
        None => Ok(None),
    }
}
