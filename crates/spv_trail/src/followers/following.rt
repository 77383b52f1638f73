// Questions that have a value by another term.

ghost use Rattle.std.specs.Prelude.{◌≡◌, ◌<◌, length, IfOk};
ghost use Rattle.spv_term.specs.Arena.{AllBelow};
ghost use Rattle.spv_trail.specs.followers.Followers.{beside, AreFollowers};

use crate::followers::equations::find_equations;
use crate::followers::negations::find_negations;
use spv_derivations::derivation::Part;
use spv_term::{TermId, Terms};
use std::alloc::{AllocError, Global};
use std::marker::Model;

/// For each term of an arena, the questions that have a value by it.
#[derive(Drop)]
pub struct Followers {
    negations: Vec<Vec<(TermId, bool)>>,
    equations: Vec<Vec<(TermId, Part)>>,
}

impl Model for Followers {
    ghost use Rattle.std.specs.Prelude.{map};
    ghost use Rattle.spv_trail.specs.followers.Followers as spec;

    ghost Value = { spec.Followers };

    ghost view = { λ f. record {
      negations = map (λ v. v.items) f.negations.items;
      equations = map (λ v. v.items) f.equations.items;
    } };
}

/// Finds the questions that have a value by another term.
pub fn find_followers(
    alloc: Global,
    terms: &Terms,
    questions: &[TermId],
) -> Result<Followers, AllocError>
    requires { AllBelow (length terms.now.nodes) questions.now }
    ensures followers { IfOk result (AreFollowers terms.now questions.now) }
{
    let negations = find_negations(alloc, terms, questions)?;
    let equations = find_equations(alloc, terms, questions)?;
    Ok(Followers {
        negations,
        equations,
    })
}

impl Followers {
    /// The questions whose core is this term and that are another one, each with whether it is true where this term is.
    pub fn negations_of(&self, t: TermId) -> &[(TermId, bool)]
        requires { t.0 < length self.now.negations }
        ensures negations { result.now ≡ beside self.now.negations t }
    {
        self.negations[t.0 as usize].as_slice()
    }

    /// Where this term says that one term is below another, the questions that are equations of the two, each with the side that its
    /// left side is on.
    pub fn equations_of(&self, t: TermId) -> &[(TermId, Part)]
        requires { t.0 < length self.now.equations }
        ensures equations { result.now ≡ beside self.now.equations t }
    {
        self.equations[t.0 as usize].as_slice()
    }
}
