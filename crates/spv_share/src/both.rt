//! A congruence graph and a tableau side by side.

ghost use Rattle.std.specs.Prelude.{◌≡◌, ◌≤◌, take, length};
ghost use Rattle.spv_term.specs.Arena.{IsArena};
ghost use Rattle.spv_congruence.specs.Told.{Undone};
ghost use Rattle.spv_share.specs.Both.{IsBoth, IsLevel, IsNoLater, IsSound, Stays, told};

use crate::relations::{Noted, Related};
use spv_arithmetic_side::constraint_rows::Standing;
use spv_explanations::congruence_side::Trail;
use spv_simplex::Mark;
use spv_term::{TermId, Terms};

/// Four terms that every arena has: TRUE, FALSE, 1 and 0.
#[derive(Clone, Copy, Debug)]
pub struct Ends {
    /// The term TRUE.
    pub truth: TermId,
    /// The term FALSE.
    pub falsity: TermId,
    /// The term 1.
    pub one: TermId,
    /// The term 0.
    pub zero: TermId,
}

/// A congruence graph and a tableau over the facts of one path.
#[derive(Drop)]
pub struct Both {
    /// The facts of the path, and the graph.
    pub trail: Trail,
    /// The tableau, and the facts that its bounds come from.
    pub standing: Standing,
    /// The relations of whole numbers among the atoms, each at the place of its row.
    pub relations: Vec<Related>,
    /// What each literal that was told says of a row, if it is one of a relation, and the number of its fact.
    pub claims: Vec<Noted>,
    /// The term 1.
    pub one: TermId,
    /// The term 0.
    pub zero: TermId,
}

/// How far both sides were.
#[derive(Debug, Drop)]
pub struct Level {
    /// How far the trail was.
    pub trail: spv_explanations::congruence_side::Level,
    /// How many bounds stood.
    pub bounds: Mark,
    /// How many literals were told.
    pub claims: usize,
}

impl Both {
    /// How far both sides are. It takes no memory.
    pub fn mark(&self, terms: &Terms) -> Level
        requires { IsBoth terms.now self.now }
        ensures level { IsLevel terms.now self.now result }
        ensures claims { result.claims ≡ length (told self.now) }
        ensures last { (l : Level) → IsLevel terms.now self.now l → IsNoLater l result }
    {
        let _ = terms;
        Level {
            trail: self.trail.level(),
            bounds: self.standing.tableau.mark(),
            claims: self.claims.as_slice().len(),
        }
    }

    /// Takes back what was told and what was found since a level. It takes no memory.
    pub fn undo(&mut self, terms: &Terms, level: &Level)
        requires sound { IsSound terms.now self.old }
        requires level { IsLevel terms.now self.old level.now }
        ensures both { IsBoth terms.now self.new }
        ensures told { told self.new ≡ take level.now.claims (told self.old) }
        ensures stays { Stays self.old self.new }
        ensures graph { Undone self.old.trail.graph level.now.trail.facts self.new.trail.graph }
        ensures bounds { self.new.standing.tableau.bounds ≡ take level.now.bounds self.old.standing.tableau.bounds }
        ensures levels { (l : Level) → IsLevel terms.now self.old l → IsNoLater l level.now → IsLevel terms.now self.new l }
    {
        let _ = terms;
        self.trail.undo(&level.trail);
        self.standing.keep(level.bounds);
        self.claims.truncate(level.claims);
    }
}
