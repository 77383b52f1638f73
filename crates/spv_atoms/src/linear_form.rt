//! Linear forms over the ids of an arena.

ghost use Rattle.std.specs.Prelude.{◌≡◌, [], ◌∷◌, pos, negsuc, IfOk, IsTrue};
ghost use Rattle.std.specs.Option.{option_map};
ghost use Rattle.spv_frac.specs.Range.{fits};
ghost use Rattle.spv_atoms.specs.Linear.{ArePartsFrom, IsIdForm};
ghost use Rattle.spv_atoms.specs.Sums.{IsSum, IsDifference, IsMultiple};

use crate::parts;
use spv_frac::{plus, times};
use spv_term::TermId;
use std::alloc::{AllocError, Global};
use std::marker::Model;

/// A linear form: a sum of terms, each times a number, and a constant. The ids of its parts ascend, no
/// coefficient is zero, and all its numbers lie from -(2^127 - 1) to 2^127 - 1.
#[derive(Debug, Drop)]
pub struct Linear {
    parts: Vec<(TermId, i128)>,
    constant: i128,
}

impl Model for Linear {
    ghost use Rattle.spv_atoms.specs.Linear.{IdForm, IsIdForm};

    ghost Value = { IdForm };

    ghost view = { λ l. record { parts = l.parts.items; constant = l.constant } };

    ghost invariant = { λ l. IsIdForm (record { parts = l.parts.items; constant = l.constant }) };
}

impl Linear {
    /// The terms that are summed, in ascending order of their ids, each with what it is multiplied by.
    pub fn parts(&self) -> &[(TermId, i128)]
        ensures { result.now ≡ self.now.parts }
    {
        self.parts.as_slice()
    }

    /// The constant.
    pub fn constant(&self) -> i128
        ensures { result ≡ self.now.constant }
    {
        self.constant
    }

    /// What is true of every linear form: its ids ascend, no coefficient is zero, and all its numbers fit.
    pub fn law_linear(&self)
        ensures { IsIdForm self.now }
    {
        let _parts = &self.parts;
    }

    // A number alone.
    pub(crate) fn number(alloc: Global, constant: i128) -> Linear
        requires { IsTrue (fits constant) }
        ensures { result ≡ record { parts = []; constant = constant } }
    {
        Linear {
            parts: Vec::new(alloc),
            constant,
        }
    }

    // A term alone.
    pub(crate) fn term(alloc: Global, t: TermId) -> Result<Linear, AllocError>
        ensures { IfOk result (λ l. l ≡ record { parts = (t, pos 1) ∷ []; constant = pos 0 }) }
    {
        let mut parts = Vec::new(alloc);
        parts.push((t, 1))?;
        Ok(Linear { parts, constant: 0 })
    }

    // The sum; `None` where one of its numbers does not fit.
    pub(crate) fn plus(&self, alloc: Global, other: &Linear) -> Result<Option<Linear>, AllocError>
        ensures { IfOk result (λ sum. IsSum self.now other.now sum) }
    {
        let Ok(constant) = plus(self.constant, other.constant) else {
            return Ok(None);
        };
        match parts::sum(alloc, self.parts.as_slice(), other.parts.as_slice())? {
            Some(parts) => Ok(Some(Linear { parts, constant })),
            None => Ok(None),
        }
    }

    // The multiple; `None` where one of its numbers does not fit.
    pub(crate) fn times(&self, alloc: Global, factor: i128) -> Result<Option<Linear>, AllocError>
        ensures { IfOk result (λ multiple. IsMultiple factor self.now multiple) }
    {
        let Ok(constant) = times(factor, self.constant) else {
            return Ok(None);
        };
        match parts::scaled(alloc, factor, self.parts.as_slice())? {
            Some(parts) => Ok(Some(Linear { parts, constant })),
            None => Ok(None),
        }
    }

    /// The difference; `None` where one of its numbers does not fit.
    pub fn minus(&self, alloc: Global, other: &Linear) -> Result<Option<Linear>, AllocError>
        ensures { IfOk result (λ difference. IsDifference self.now other.now difference) }
    {
        other.law_linear();
        match other.times(alloc, -1)? {
            Some(negated) => self.plus(alloc, &negated),
            None => Ok(None),
        }
    }
}
