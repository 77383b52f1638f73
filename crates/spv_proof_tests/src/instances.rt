//! The list of instances of schemas.

ghost use Rattle.std.specs.Prelude.{◌<◌, length, IfOk};

use spv_logic::list::List;
use spv_proof::schema_facts::{Instance, instances};
use spv_schemas::SchemaKind;
use spv_term::{Head, Shapes, TermFault, TermId, Terms};
use std::alloc::Global;
use std::test::Fail;

// -7, 2 and -7 DIV 2.
#[tactic(auto, using(spv_term::proofs::ArenaLemmas::growth))]
fn divided(alloc: Global) -> Result<(Terms, TermId, TermId, TermId), TermFault>
    ensures a { IfOk result (λ r. r.1.0 < length r.0.nodes) }
    ensures k { IfOk result (λ r. r.2.0 < length r.0.nodes) }
    ensures quotient { IfOk result (λ r. r.3.0 < length r.0.nodes) }
{
    let mut terms = Terms::new(alloc, Shapes::new(alloc), List::new(alloc), 3);
    let a = terms.make(Head::Num(-7), &[])?;
    let k = terms.make(Head::Num(2), &[])?;
    let quotient = terms.make(Head::Div, &[a, k])?;
    Ok((terms, a, k, quotient))
}

// Whether an instance is about these two terms.
fn is_about(instance: &Instance, a: TermId, k: TermId) -> bool {
    match instance.about.as_slice() {
        [first, second] => *first == a && *second == k && instance.field.is_none(),
        _ => false,
    }
}

#[test]
fn a_quotient_calls_for_four_facts(rt: HostRuntime) -> Result<(), Fail> {
    let (terms, a, k, quotient) = divided(rt.alloc())?;
    let found = instances(rt.alloc(), &terms, &[a, k, quotient])?;
    assert_eq!(rt; found.len(), 4);
    assert!(rt;
        found
            .as_slice()
            .iter()
            .all(|instance| is_about(instance, a, k))
    );
    let mut kinds = found.as_slice().iter().map(|instance| instance.kind);
    assert!(rt; matches!(kinds.next(), Some(SchemaKind::DivMod)));
    assert!(rt; matches!(kinds.next(), Some(SchemaKind::ModOfNonNegative)));
    assert!(rt; matches!(kinds.next(), Some(SchemaKind::ModOfNonPositive)));
    assert!(rt; matches!(kinds.next(), Some(SchemaKind::DivOfNumerals)));
    Ok(())
}
