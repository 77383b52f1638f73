// Which of three outcomes verdicts have.

ghost use Rattle.std.specs.Prelude.{◌≡◌};
ghost use Rattle.spv_reports.specs.Reports as spec;

use crate::mode::Mode;
use spv_verdicts::answers::{Decided, Verdict};

/// Whether a verdict is Proved.
pub fn is_proved(verdict: &Verdict) -> bool
    ensures { result ≡ spec.is_proved verdict.now }
{
    match verdict {
        Verdict::Proved(_) => true,
        Verdict::Unproved(_) => false,
        Verdict::GaveUp(_, _) => false,
        Verdict::NotAccepted => false,
    }
}

/// Whether a verdict is Unproved.
pub fn is_unproved(verdict: &Verdict) -> bool
    ensures { result ≡ spec.is_unproved verdict.now }
{
    match verdict {
        Verdict::Proved(_) => false,
        Verdict::Unproved(_) => true,
        Verdict::GaveUp(_, _) => false,
        Verdict::NotAccepted => false,
    }
}

/// Whether a verdict is NotAccepted.
pub fn is_not_accepted(verdict: &Verdict) -> bool
    ensures { result ≡ spec.is_not_accepted verdict.now }
{
    match verdict {
        Verdict::Proved(_) => false,
        Verdict::Unproved(_) => false,
        Verdict::GaveUp(_, _) => false,
        Verdict::NotAccepted => true,
    }
}

/// Whether a verdict is the one for which a report of this mode fails: in the mode `Check` NotAccepted, else Unproved.
pub fn fails(mode: &Mode, verdict: &Verdict) -> bool
    ensures { result ≡ spec.fails mode.now verdict.now }
{
    match mode {
        Mode::Verify(_) => is_unproved(verdict),
        Mode::Simplify(_) => is_unproved(verdict),
        Mode::Check => is_not_accepted(verdict),
        Mode::Conditions => is_unproved(verdict),
        Mode::Drill(_, _) => is_unproved(verdict),
    }
}

/// Whether every verdict is Proved.
pub fn all_proved(verdicts: &[Decided]) -> bool
    ensures { result ≡ spec.all_proved verdicts.now }
{
    verdicts.iter().all(|decided| is_proved(&decided.verdict))
}

/// Whether no verdict fails. Where not all are Proved, some condition was then given up.
pub fn none_fails(mode: &Mode, verdicts: &[Decided]) -> bool
    ensures { result ≡ spec.none_fails mode.now verdicts.now }
{
    verdicts
        .iter()
        .all(|decided| !fails(mode, &decided.verdict))
}
