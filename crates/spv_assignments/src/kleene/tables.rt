// The three-valued tables of the connectives: no value means that it is not known.

ghost use Rattle.std.specs.Prelude.{◌≡◌};
ghost use Rattle.spv_atoms.specs.Tables as spec;
ghost use Rattle.spv_proof_rules.specs.Evaluation as evaluation;
ghost use Rattle.spv_assignments.specs.kleene.Passes as passes;

use spv_term::Head;

// The value of a negation.
fn not_of(a: Option<bool>) -> Option<bool>
    ensures { result ≡ spec.not_of a }
{
    match a {
        Some(value) => Some(!value),
        None => None,
    }
}

// The value of a conjunction.
fn and_of(a: Option<bool>, b: Option<bool>) -> Option<bool>
    ensures { result ≡ spec.and_of a b }
{
    match a {
        Some(true) => b,
        Some(false) => Some(false),
        None => match b {
            Some(false) => Some(false),
            _ => None,
        },
    }
}

// The value of a disjunction.
fn or_of(a: Option<bool>, b: Option<bool>) -> Option<bool>
    ensures { result ≡ spec.or_of a b }
{
    not_of(and_of(not_of(a), not_of(b)))
}

// The value of an implication.
fn implied(a: Option<bool>, b: Option<bool>) -> Option<bool>
    ensures { result ≡ spec.implied a b }
{
    or_of(not_of(a), b)
}

// The value of an equation of two truth values.
fn same_of(a: Option<bool>, b: Option<bool>) -> Option<bool>
    ensures { result ≡ spec.same_of a b }
{
    match a {
        Some(true) => b,
        Some(false) => not_of(b),
        None => None,
    }
}

/// The value of a connective of this head, whose first two arguments have the values x and y.
pub(crate) fn connected(head: Head, x: Option<bool>, y: Option<bool>) -> Option<bool>
    ensures { result ≡ passes.connected head x y }
{
    match head {
        Head::Not => not_of(x),
        Head::And => and_of(x, y),
        Head::Or => or_of(x, y),
        Head::Implies => implied(x, y),
        Head::Eq => same_of(x, y),
        _ => None,
    }
}

/// The first value, else the second one.
pub(crate) fn or_else(a: Option<bool>, b: Option<bool>) -> Option<bool>
    ensures { result ≡ spec.or_else a b }
{
    match a {
        Some(value) => Some(value),
        None => b,
    }
}

/// Whether there are two values, and they differ.
pub(crate) fn opposite(a: Option<bool>, b: Option<bool>) -> bool
    ensures { result ≡ evaluation.opposite a b }
{
    match (a, b) {
        (Some(true), Some(false)) => true,
        (Some(false), Some(true)) => true,
        _ => false,
    }
}
