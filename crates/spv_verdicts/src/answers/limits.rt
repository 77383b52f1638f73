// How much a search may do.

ghost use Rattle.std.specs.Prelude.{◌≡◌, ◌≤◌};
ghost use Rattle.spv_verdicts.specs.Verdicts.{most_terms};

use std::marker::Model;

/// How much a search may do.
#[derive(Debug, Drop)]
pub struct Limits {
    splits: u64,
    instances: u64,
    pivots: u64,
    terms: u32,
}

impl Model for Limits {
    ghost use Rattle.std.specs.Prelude.{◌≤◌};
    ghost use Rattle.spv_verdicts.specs.Verdicts as spec;

    ghost Value = { spec.Limits };

    ghost view = { λ l. record { splits = l.splits; instances = l.instances; pivots = l.pivots; terms = l.terms } };

    ghost invariant = { λ l. l.pivots ≤ 1000000 };
}

impl Limits {
    /// At most so many splits, at most so many instances of rules, at most so many steps in each check of the tableau, and at most 1000000
    /// terms.
    pub fn new(splits: u64, instances: u64, pivots: u64) -> Limits
        requires { pivots ≤ 1000000 }
        ensures splits { result.splits ≡ splits }
        ensures instances { result.instances ≡ instances }
        ensures pivots { result.pivots ≡ pivots }
        ensures terms { result.terms ≡ most_terms }
    {
        Limits {
            splits,
            instances,
            pivots,
            terms: 1_000_000,
        }
    }

    /// The same limits for a search that may have so many terms.
    pub fn with_terms(&self, terms: u32) -> Limits
        ensures { result ≡ record { splits = self.now.splits; instances = self.now.instances; pivots = self.now.pivots; terms = terms } }
    {
        Limits {
            splits: self.splits,
            instances: self.instances,
            pivots: self.pivots,
            terms,
        }
    }

    /// How many splits a search may make.
    pub fn splits(&self) -> u64
        ensures { result ≡ self.now.splits }
    {
        self.splits
    }

    /// How many instances of rules a search may add.
    pub fn instances(&self) -> u64
        ensures { result ≡ self.now.instances }
    {
        self.instances
    }

    /// How many steps a check of the tableau may make.
    pub fn pivots(&self) -> u64
        ensures value { result ≡ self.now.pivots }
        ensures most { result ≤ 1000000 }
    {
        self.pivots
    }
    /// How many terms a search may have.
    pub fn terms(&self) -> u32
        ensures { result ≡ self.now.terms }
    {
        self.terms
    }
}
