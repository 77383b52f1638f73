// How much a search may do where nothing is said.

ghost use Rattle.std.specs.Prelude.{◌≡◌};
ghost use Rattle.spv_reports.specs.Reports as spec;

use spv_verdicts::answers::Limits;

/// The limits of a search where none are given: 20000 splits, 400 instances of rules, and 5000 steps in each check of the tableau.
pub fn default_limits() -> Limits
    ensures { result ≡ spec.default_limits }
{
    Limits::new(20000, 400, 5000)
}
