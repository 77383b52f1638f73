// What a formula says of its core.

use spv_term::TermId;

/// What a formula says of its core: a term without negations, its truth, and whether this is the formula itself.
#[derive(Clone, Copy, Debug)]
pub struct Standing {
    /// The core.
    pub core: TermId,
    /// Its truth where the formula is true.
    pub truth: bool,
    /// Whether that the core has this truth is the formula itself.
    pub is_same: bool,
}
