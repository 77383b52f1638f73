// What comes next in a check.

ghost use Rattle.std.specs.Prelude.{◌≡◌, false, length, IfOk, IfErr};
ghost use Rattle.spv_tableau_rules.specs.tableaux.Operations.{fits, Compares};
ghost use Rattle.spv_dictionary.specs.updates.Shifts.{value_in};
ghost use Rattle.spv_dictionary.specs.pivoting.Choosing.{limits_of, IsLeaving};
ghost use Rattle.spv_dictionary.specs.pivoting.Finding.{IsFound};

use crate::Dictionary;
use crate::checked_numbers::{Number, Refused};
use crate::pivoting::choosing::{Chosen, leaving};
use crate::pivoting::entering::{Entry, entering};
use crate::pivoting::trail::Trail;

/// What comes next in a check.
#[derive(Clone, Copy, Debug)]
pub enum Found {
    /// No column in the basis is out of its bounds.
    Met,
    /// A column is out of its bounds, and none may enter for it.
    Stuck(Chosen),
    /// The columns of the next step.
    Step(Chosen, Entry),
}

// What comes next, for the column that leaves.
fn find_for(
    dictionary: &Dictionary,
    values: &[Number],
    trail: &Trail,
    chosen: Chosen,
) -> Result<Found, Refused>
    requires count { length values.now ≡ length dictionary.now.spots }
    requires rows { trail.now.rows ≡ length dictionary.now.basic }
    requires leaves { IsLeaving (limits_of (length dictionary.now.outside) trail.now.bounds) dictionary.now (value_in values.now) chosen }
    ensures value { IfOk result (IsFound (limits_of (length dictionary.now.outside) trail.now.bounds) dictionary.now (value_in values.now)) }
    ensures refused { IfErr result (λ o. Compares (limits_of (length dictionary.now.outside) trail.now.bounds) (value_in values.now) o) }
    ensures unfit { IfErr result (λ o. fits o ≡ false) }
{
    dictionary.law_dictionary();
    match entering(dictionary, values, trail, chosen.row, chosen.side) {
        Ok(Some(entry)) => Ok(Found::Step(chosen, entry)),
        Ok(None) => Ok(Found::Stuck(chosen)),
        Err(refused) => Err(refused),
    }
}

/// What comes next in a check whose columns outside the basis are in their bounds.
pub fn find(dictionary: &Dictionary, values: &[Number], trail: &Trail) -> Result<Found, Refused>
    requires count { length values.now ≡ length dictionary.now.spots }
    requires rows { trail.now.rows ≡ length dictionary.now.basic }
    ensures value { IfOk result (IsFound (limits_of (length dictionary.now.outside) trail.now.bounds) dictionary.now (value_in values.now)) }
    ensures refused { IfErr result (λ o. Compares (limits_of (length dictionary.now.outside) trail.now.bounds) (value_in values.now) o) }
    ensures unfit { IfErr result (λ o. fits o ≡ false) }
{
    match leaving(dictionary, values, trail) {
        Ok(Some(chosen)) => find_for(dictionary, values, trail, chosen),
        Ok(None) => Ok(Found::Met),
        Err(refused) => Err(refused),
    }
}
