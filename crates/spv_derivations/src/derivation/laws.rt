// What is true of every derivation, as contracts of functions that do nothing.

ghost use Rattle.std.specs.Prelude.{List};
ghost use Rattle.spv_term.specs.Arena.{Arena, Extends};
ghost use Rattle.spv_derivations.specs.declared.derivation.entries.Entry.{Entry};
ghost use Rattle.spv_derivations.specs.derivation.Derivation.{IsDerivation};
ghost use Rattle.spv_derivations.specs.derivation.Laws.{FactsStay, FirstAreDerivation, LooksAtCited, SidesAreEqual, Stays, StepsAdd, StepsClose};

/// A step looks only at the facts that it cites: where they have other numbers among other facts, it does the same.
pub fn law_cited()
    ensures { LooksAtCited }
{}

/// Where the arena grows, a derivation stays one, with the same facts.
pub fn law_grows()
    ensures { (old new : Arena) → Extends old new → (es : List Entry) → IsDerivation old es → Stays old new es }
{}

/// The first entries of a derivation are one, and facts stay where others come behind them.
pub fn law_first()
    ensures first { FirstAreDerivation }
    ensures facts { FactsStay }
{}

/// On a path that has what was told under its own numbers, the steps of a derivation add the derived facts in order; with an end of the path
/// they close it.
pub fn law_steps()
    ensures adds { StepsAdd }
    ensures closes { StepsClose }
{}

/// An entry that states an equation by its form adds it.
pub fn law_sides()
    ensures { SidesAreEqual }
{}
