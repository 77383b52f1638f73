// Sums so far.

ghost use Rattle.std.specs.Prelude.{◌≡◌, [], OnOk, pos};
ghost use Rattle.spv_whole.specs.Fraction.{whole};
ghost use Rattle.spv_proof.specs.sums.Partials as spec;

use indexmap::IndexMap;
use spv_frac::Frac;
use spv_term::TermId;
use std::alloc::{AllocError, Global};
use std::marker::Model;

/// A sum so far: what its terms are multiplied by, and a constant. A look-up goes by a hash.
#[derive(Drop)]
pub(crate) struct PartialSum {
    parts: IndexMap<TermId, Frac>,
    constant: Frac,
}

impl Model for PartialSum {
    ghost use Rattle.spv_proof.specs.sums.Partials.{IdSum};

    ghost Value = { IdSum };

    ghost view = { λ s. record { parts = s.parts.entries; constant = s.constant } };
}

impl PartialSum {
    // The sum of nothing.
    pub(crate) fn new(alloc: Global) -> PartialSum
        ensures { result ≡ record { parts = []; constant = whole (pos 0) } }
    {
        PartialSum {
            parts: IndexMap::new(alloc),
            constant: Frac::whole(0),
        }
    }

    // What a term is multiplied by.
    pub(crate) fn factor(&self, t: TermId) -> Frac
        ensures { result ≡ spec.factor_at self.now.parts t }
    {
        match self.parts.get(&t) {
            Some(factor) => *factor,
            None => Frac::whole(0),
        }
    }

    // Puts what a term is multiplied by in the place of what it was.
    pub(crate) fn set_factor(&mut self, t: TermId, factor: Frac) -> Result<(), AllocError>
        ensures { OnOk result (self.new ≡ spec.with_factor_at self.old t factor) }
    {
        self.parts.insert(t, factor)?;
        Ok(())
    }

    // The constant.
    pub(crate) fn constant(&self) -> Frac
        ensures { result ≡ self.now.constant }
    {
        self.constant
    }

    // Puts a constant in the place of the one that was.
    pub(crate) fn set_constant(&mut self, constant: Frac)
        ensures { self.new ≡ record { parts = self.old.parts; constant = constant } }
    {
        self.constant = constant;
    }

    // Whether it is a constant above 0.
    pub(crate) fn is_above_zero(&self) -> bool
        ensures { result ≡ spec.is_above_zero self.now }
    {
        self.is_constant() && self.constant.sign() > 0
    }

    // Whether each term is multiplied by 0.
    fn is_constant(&self) -> bool
        ensures { result ≡ spec.all_zero self.now.parts }
    {
        for factor in self.parts.values() {
            if factor.sign() != 0 {
                return false;
            }
        }
        true
    }
}
