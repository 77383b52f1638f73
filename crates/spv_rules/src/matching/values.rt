// Tests of values.

ghost use Rattle.std.specs.Prelude.{◌≡◌, ◌<◌, length, true, Ok, IfOk, IfErr};
ghost use Rattle.spv_whole.specs.Fraction.{whole};
ghost use Rattle.spv_term.specs.Arena.{tree};
ghost use Rattle.spv_frac.specs.Range.{fits};
ghost use Rattle.spv_table.specs.Values as table_values;
ghost use Rattle.spv_rules.specs.matching.Matches as spec;
ghost use Rattle.spv_rules.specs.matching.Views.{setting_in, IsSetting, IsMatchFault};

use crate::matching::faults::MatchFault;
use spv_frac::Frac;
use spv_logic::Head;
use spv_table::{Table, ValueFault};
use spv_term::{TermId, Terms};
use std::alloc::Global;

// What the trigger of a rule is matched with.
#[derive(Clone, Copy)]
pub(crate) struct Setting<'a> {
    pub(crate) alloc: Global,
    // The terms of rules.
    pub(crate) patterns: &'a Terms,
    // The variables of the rule.
    pub(crate) variables: &'a [Head],
    // The terms of a condition.
    pub(crate) terms: &'a Terms,
    // Those that it uses.
    pub(crate) used: &'a [TermId],
    // What they are worth.
    pub(crate) table: &'a Table,
}

// The value of a term.
fn value_of(s: &Setting<'_>, t: TermId) -> Result<Frac, MatchFault>
    requires setting { IsSetting s.now }
    requires t { t.0 < length s.now.terms.now.nodes }
    ensures value { IfOk result (λ x. spec.value_of (setting_in s.now).listed (tree s.now.terms.now t) ≡ Ok x) }
    ensures fault { IfErr result (IsMatchFault s.now.terms.now (spec.value_of (setting_in s.now).listed (tree s.now.terms.now t))) }
{
    match s.table.value(s.alloc, s.terms, t) {
        Ok(x) => Ok(x),
        Err(ValueFault::Wide(wide)) => Err(MatchFault::Wide(t, wide)),
        Err(ValueFault::Memory) => Err(MatchFault::Memory),
    }
}

// Whether two fractions are the same.
fn is_same(x: Frac, y: Frac) -> bool
    ensures { result ≡ table_values.is_same x y }
{
    x.num == y.num && x.den == y.den
}

// Whether two terms have one value.
pub(crate) fn have_one_value(
    s: &Setting<'_>,
    left: TermId,
    right: TermId,
) -> Result<bool, MatchFault>
    requires setting { IsSetting s.now }
    requires left { left.0 < length s.now.terms.now.nodes }
    requires right { right.0 < length s.now.terms.now.nodes }
    ensures value { IfOk result
        (λ b. spec.have_one_value (setting_in s.now).listed (tree s.now.terms.now left) (tree s.now.terms.now right) ≡ Ok b) }
    ensures fault { IfErr result
        (IsMatchFault s.now.terms.now (spec.have_one_value (setting_in s.now).listed (tree s.now.terms.now left) (tree s.now.terms.now right))) }
{
    let x = value_of(s, left)?;
    let y = value_of(s, right)?;
    Ok(is_same(x, y))
}

// A numeral as a fraction.
fn numeral(number: i128) -> Frac
    requires { fits number ≡ true }
    ensures { result ≡ whole number }
{
    Frac {
        num: number,
        den: 1,
    }
}

// Whether a term's value is this number.
pub(crate) fn has_number(s: &Setting<'_>, number: i128, t: TermId) -> Result<bool, MatchFault>
    requires setting { IsSetting s.now }
    requires number { fits number ≡ true }
    requires t { t.0 < length s.now.terms.now.nodes }
    ensures value { IfOk result (λ b. spec.has_number (setting_in s.now).listed number (tree s.now.terms.now t) ≡ Ok b) }
    ensures fault { IfErr result
        (IsMatchFault s.now.terms.now (spec.has_number (setting_in s.now).listed number (tree s.now.terms.now t))) }
{
    let x = value_of(s, t)?;
    Ok(is_same(x, numeral(number)))
}
