// What a walk over statements leaves to others.

ghost use Rattle.std.specs.Prelude.{◌≡◌, List, Option, Some, IfOk, IfErr, IsTrue};
ghost use Rattle.spv_logic.specs.declared.conditions.RoutineId.{RoutineId};
ghost use Rattle.spv_logic.specs.Conditions as logic;
ghost use Rattle.spv_term.specs.Arena.{Arena, sort_at};
ghost use Rattle.spv_program.specs.Changes.{changed_heads};
ghost use Rattle.spv_program.specs.ExpressionTerms as plain;
ghost use Rattle.spv_program.specs.ExpressionTerms.{valued};
ghost use Rattle.spv_program.specs.ExpressionTypes.{expression_sort};
ghost use Rattle.spv_program.specs.Programs as programs;
ghost use Rattle.spv_program.specs.Programs.{routine_in};
ghost use Rattle.spv_program.specs.Terms.{body_term};
ghost use Rattle.spv_program.specs.typed.FormulaViews.{annotation_of};
ghost use Rattle.spv_assign.specs.supply.Numbers.{AreThere, supply_of};
ghost use Rattle.spv_assign.specs.Conditions.{AreIn};
ghost use Rattle.spv_meaning.specs.Before as meaning;
ghost use Rattle.spv_meaning.specs.Before.{before_calls};
ghost use Rattle.spv_assign.specs.declared.creation_trace.faults.GenFault.TheVariants.{Memory};
ghost use Rattle.spv_flow_parts.specs.Standing.{AreNotes, IsBody, Stands};
ghost use Rattle.spv_flow_parts.specs.Walks.{AreThese, Comes, ComesTo, MakesTerm, made_of};
ghost use Rattle.spv_flow_parts.specs.leaves.Parts.{Making, Taking};
ghost use Rattle.spv_flow_parts.specs.leaves.Values.{AreCalls, MakesValue, call_events};

use crate::leaves::valued::Valued;
use crate::{Body, IndexedProgram};
use spv_assign::Pending;
use spv_assign::creation_trace::GenFault;
use spv_assign::supply::Supply;
use spv_logic::Head;
use spv_program::typed::{Annotation, Expression, Statement};
use spv_term::{TermId, Terms};

/// How assignments, NEW and calls, expressions with their calls, and annotations of a body become terms and conditions. A
/// walk over statements asks for them, in the order of the rules.
///
/// `takes` says which statements and expressions of a body are taken, `making` what is made for them, in order. `fits` is
/// what a value has to have at hand for a body, beside what is looked up in that.
pub trait Leaves {
    ghost takes: { programs.Program → Option RoutineId → Taking };

    ghost making: { programs.Program → Option RoutineId → Making };

    ghost fits: { Self → programs.Program → Option RoutineId → Type 0 };

    /// The conditions before an assignment, a NEW or a call, where these stand behind it.
    fn leaf(
        &mut self,
        program: &IndexedProgram<'_>,
        body: &Body<'_>,
        terms: &mut Terms,
        supply: &mut Supply,
        s: &Statement,
        rest: Pending,
    ) -> Result<Pending, GenFault>
        requires fits { fits self.old program.now body.now.here }
        requires stands { Stands program.now body.now terms.old }
        requires takes { IsTrue ((takes program.now body.now.here).leaf s.now) }
        requires there { AreThere terms.old (supply_of supply.old) }
        requires rest { AreIn terms.old rest.items }
        ensures fits { fits self.new program.now body.now.here }
        ensures made { Comes result (meaning.before program.now body.now.here s.now (made_of terms.old rest.items (supply_of supply.old)))
            ((making program.now body.now.here).leaf s.now (made_of terms.old rest.items (supply_of supply.old))) terms.old terms.new (supply_of supply.new) };

    /// The term of an expression, with the calls that are made in it.
    fn test(
        &mut self,
        program: &IndexedProgram<'_>,
        body: &Body<'_>,
        terms: &mut Terms,
        supply: &mut Supply,
        e: &Expression,
    ) -> Result<Valued, GenFault>
        requires fits { fits self.old program.now body.now.here }
        requires stands { Stands program.now body.now terms.old }
        requires takes { IsTrue ((takes program.now body.now.here).test e.now) }
        requires there { AreThere terms.old (supply_of supply.old) }
        ensures fits { fits self.new program.now body.now.here }
        ensures made { MakesValue result (valued program.now (routine_in program.now body.now.here) (supply_of supply.old) e.now)
            ((making program.now body.now.here).test e.now (supply_of supply.old)) terms.old terms.new (supply_of supply.new) }
        ensures sort { IfOk result (λ v. expression_sort program.now (routine_in program.now body.now.here) e.now ≡ Some (sort_at terms.new v.term)) };

    /// The calls of an expression in front of conditions: what each needs is wanted, and what it gives is known from there on.
    fn before_test(
        &mut self,
        program: &IndexedProgram<'_>,
        body: &Body<'_>,
        tested: &Valued,
        rest: Pending,
    ) -> Result<Pending, GenFault>
        requires fits { fits self.old program.now body.now.here }
        ensures fits { fits self.new program.now body.now.here }
        ensures made { (a : Arena) (calls : List plain.Called) (cs : List logic.Condition) → AreCalls a tested.now.calls calls → AreThese a rest.items cs
            → ComesTo result (before_calls body.now.here calls cs) (call_events body.now.here calls cs) a a };

    /// The term of an annotation.
    fn note(
        &mut self,
        program: &IndexedProgram<'_>,
        body: &Body<'_>,
        terms: &mut Terms,
        a: &Annotation,
    ) -> Result<TermId, GenFault>
        requires fits { fits self.old program.now body.now.here }
        requires stands { Stands program.now body.now terms.old }
        requires typed { AreNotes program.now body.now.here (Some (annotation_of a.now)) }
        ensures fits { fits self.new program.now body.now.here }
        ensures made { MakesTerm result (body_term program.now (routine_in program.now body.now.here) (annotation_of a.now)) terms.old terms.new };

    /// The variables and classes that a statement may change, in the order in which loops rename them.
    fn changed(
        &mut self,
        program: &IndexedProgram<'_>,
        body: &Body<'_>,
        s: &Statement,
    ) -> Result<Vec<Head>, GenFault>
        requires fits { fits self.old program.now body.now.here }
        requires body { IsBody program.now body.now }
        ensures fits { fits self.new program.now body.now.here }
        ensures heads { IfOk result (λ heads. heads.items ≡ changed_heads program.now (routine_in program.now body.now.here) s.now) }
        ensures err { IfErr result (λ e. e ≡ Memory) };
}
