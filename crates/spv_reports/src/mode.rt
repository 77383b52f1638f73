// What a report is for.

use spv_verdicts::answers::Limits;

/// Which of the generated programs is meant.
#[derive(Clone, Copy, Debug)]
pub struct Load {
    /// The number that its constants are made of.
    pub number: u64,
    /// How many procedures it has.
    pub size: u32,
}

/// What a report is for.
#[derive(Debug, Drop)]
pub enum Mode {
    /// A verdict on each condition of a program, within these limits.
    Verify(Limits),
    /// The same on the one condition of a formula text.
    Simplify(Limits),
    /// For each condition of a program, whether the proof is accepted that a listing has of it.
    Check,
    /// The conditions of a program alone.
    Conditions,
    /// A verdict on each condition of a generated program, within these limits; a page tells how many there are of each kind.
    Drill(Load, Limits),
}
