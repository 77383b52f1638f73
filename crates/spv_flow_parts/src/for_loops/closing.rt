// The conditions of a FOR, put together.

ghost use Rattle.std.specs.Prelude.{◌≡◌, ◌<◌, ◌+◌, ◌++◌, List, Option, length, IfOk, IfErr, option_map};
ghost use Rattle.spv_logic.specs.declared.types.Sort.TheVariants as sort;
ghost use Rattle.spv_logic.specs.Terms.{Term};
ghost use Rattle.spv_logic.specs.Substitution.{substitute};
ghost use Rattle.spv_logic.specs.Conditions as logic;
ghost use Rattle.spv_term.specs.Arena.{Arena, sort_at, tree};
ghost use Rattle.spv_term.specs.substitution.Images.{ArePairs};
ghost use Rattle.spv_program.specs.Calls.{replacing};
ghost use Rattle.spv_program.specs.Supplies as spec;
ghost use Rattle.spv_assign.specs.supply.Numbers.{AreThere};
ghost use Rattle.spv_assign.specs.Conditions.{AreIn, conditions_of, pairs_of};
ghost use Rattle.spv_assign.specs.declared.creation_trace.faults.GenFault.TheVariants.{Memory};
ghost use Rattle.spv_assign.specs.creation_trace.StatementEvents.{counted};
ghost use Rattle.spv_assign.specs.limited_steps.Makes.{IsTerm};
ghost use Rattle.spv_flow_parts.specs.Walks.{AreThese, Comes, ComesTo, IsThere};
ghost use Rattle.spv_flow_parts.specs.for_loops.Counting.{closed, closing_events};
ghost use Rattle.spv_flow_parts.specs.for_loops.Counting as rule;

use crate::for_loops::terms::{EndTerms, ends, put_if_there};
use crate::known;
use spv_assign::Pending;
use spv_assign::creation_trace::GenFault;
use spv_assign::limited_steps::joined;
use spv_program::Direction;
use spv_term::{TermId, Terms};
use std::alloc::Global;

// Conditions under a test, and under what is known.
fn side(h: Option<TermId>, test: TermId, conditions: Pending) -> Result<Pending, GenFault>
    ensures conditions { (a : Arena) (x : Option Term) (y : Term) (cs : List logic.Condition) → IsThere a h → option_map (tree a) h ≡ x → IsTerm a test y → AreThese a conditions.items cs
        → IfOk result (λ all. AreThese a all.items (rule.side x y cs)) }
    ensures err { IfErr result (λ e. e ≡ Memory) }
{
    let under = known(Some(test), conditions)?;
    known(h, under)
}

// The conditions of the beginning, of the turns and of what is behind, one behind the other.
fn joined_sides(
    h: Option<TermId>,
    e: EndTerms,
    begun: Pending,
    inside: Pending,
    outside: Pending,
) -> Result<Pending, GenFault>
    ensures { (a : Arena) (x : Option Term) (y z : Term) (bs cs ds : List logic.Condition) → IsThere a h → option_map (tree a) h ≡ x → IsTerm a e.within y → IsTerm a e.past z
        → AreThese a begun.items bs → AreThese a inside.items cs → AreThese a outside.items ds
        → ComesTo result (bs ++ (rule.side x y cs ++ rule.side x z ds)) (counted (length bs + (length cs + length ds))) a a }
{
    let first = side(h, e.within, inside)?;
    let second = side(h, e.past, outside)?;
    let both = joined(first, second)?;
    joined(begun, both)
}

/// The conditions of a FOR's end, where those of its beginning, of its turns and of what is behind it are made.
pub(crate) fn close(
    alloc: Global,
    terms: &mut Terms,
    pairs: &[(TermId, TermId)],
    note: Option<TermId>,
    direction: Direction,
    variable: TermId,
    end: TermId,
    begun: Pending,
    inside: Pending,
    outside: Pending,
) -> Result<Pending, GenFault>
    requires pairs { ArePairs terms.old pairs.now }
    requires note { IsThere terms.old note }
    requires variable { variable.0 < length terms.old.nodes }
    requires number { sort_at terms.old variable ≡ sort.Int }
    requires end { end.0 < length terms.old.nodes }
    requires end_sort { sort_at terms.old end ≡ sort.Int }
    requires begun { AreIn terms.old begun.items }
    requires inside { AreIn terms.old inside.items }
    requires outside { AreIn terms.old outside.items }
    ensures { ComesTo result
        (closed (pairs_of terms.old pairs.now) (option_map (tree terms.old) note) direction (substitute (replacing (pairs_of terms.old pairs.now)) (tree terms.old variable)) (tree terms.old end)
        (conditions_of terms.old begun.items) (conditions_of terms.old inside.items) (conditions_of terms.old outside.items))
        (closing_events (pairs_of terms.old pairs.now) (option_map (tree terms.old) note) direction (substitute (replacing (pairs_of terms.old pairs.now)) (tree terms.old variable)) (tree terms.old end)
        (conditions_of terms.old begun.items) (conditions_of terms.old inside.items) (conditions_of terms.old outside.items))
        terms.old terms.new }
{
    let h = put_if_there(alloc, terms, pairs, note)?;
    let e = ends(alloc, terms, pairs, direction, variable, end)?;
    joined_sides(h, e, begun, inside, outside)
}
