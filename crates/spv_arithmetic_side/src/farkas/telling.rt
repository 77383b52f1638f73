// What is told of a relation.

ghost use Rattle.std.specs.Prelude.{◌≡◌};
ghost use Rattle.spv_arithmetic_side.specs.farkas.Told as spec;

use crate::bounds::saying;
use spv_derivations::derivation::Part;
use spv_tableau_rules::constraints::RowConstraint;
use spv_term::Head;

// What an order of the sides of an equation says; `None` for another head.
fn order(head: Head, order: RowConstraint) -> Option<RowConstraint>
    ensures { result ≡ spec.order head order }
{
    match head {
        Head::Eq => Some(order),
        _ => None,
    }
}

/// What is told of a relation of this head, as what it says of its sides; `None` for another head.
pub fn told(head: Head, part: Part) -> Option<RowConstraint>
    ensures { result ≡ spec.told head part }
{
    match part {
        Part::True => saying(head, true),
        Part::False => saying(head, false),
        Part::Below => order(head, RowConstraint::Below),
        Part::Above => order(head, RowConstraint::Above),
    }
}
