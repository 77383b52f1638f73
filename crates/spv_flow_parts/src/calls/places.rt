// Places, step by step, with what stands there.

ghost use Rattle.std.specs.Prelude.{◌≡◌, ◌<◌, [], length, IfOk, IsSome, IsTrue, None, OnOk};
ghost use Rattle.spv_logic.specs.Sorts.{sort_in_range, term_sort};
ghost use Rattle.spv_term.specs.Arena.{Extends, tree};
ghost use Rattle.spv_program.specs.Lists.{found};
ghost use Rattle.spv_program.specs.Places as place;
ghost use Rattle.spv_program.specs.Places.{ToElement, ToField, cell_behind, further, present};
ghost use Rattle.spv_program.specs.Scopes.{sort_or_int};
ghost use Rattle.spv_program.specs.Terms.{alone, name_in};
ghost use Rattle.spv_assign.specs.creation_trace.Events.{Answers};
ghost use Rattle.spv_assign.specs.creation_trace.StatementEvents.{one};
ghost use Rattle.spv_assign.specs.structures.Targets.{target_in};
ghost use Rattle.spv_flow_parts.specs.calls.Arguments.{IsWay};

use crate::Body;
use spv_assign::creation_trace::GenFault;
use spv_assign::limited_steps::{limited, made};
use spv_assign::structures::{Step, Target, cell, field, select};
use spv_logic::list::List;
use spv_logic::names::Symbol;
use spv_logic::{Head, Sort, TypeId};
use spv_term::{TermId, Terms};
use std::alloc::Global;

// A place on the way, and what stands there.
#[derive(Drop)]
pub(crate) struct Way {
    pub(crate) target: Target,
    pub(crate) term: TermId,
}

// The place that a name is.
pub(crate) fn start(body: &Body<'_>, terms: &mut Terms, name: Symbol) -> Result<Way, GenFault>
    requires types { IsTrue (sort_in_range terms.old.shapes (sort_or_int (found body.now.variables name))) }
    ensures grows { Extends terms.old terms.new }
    ensures walk { Answers result (one (alone (name_in body.now.variables name))) terms.old terms.new }
    ensures way { IfOk result (λ w. IsWay terms.new w) }
    ensures same { IfOk result (λ w. target_in terms.new w.target ≡ record { root = name_in body.now.variables name; pointer = None; path = [] }) }
{
    let sort = match body.variables.get(name) {
        Some(s) => s,
        None => Sort::Int,
    };
    let root = made(terms, Head::Var(name, sort, 0), &[])?;
    Ok(Way {
        target: Target {
            root,
            pointer: None,
            path: List::new(body.alloc),
        },
        term: root,
    })
}

// A step to the element at an index.
pub(crate) fn to_element(terms: &mut Terms, way: &mut Way, index: TermId) -> Result<(), GenFault>
    requires way { IsWay terms.old way.old }
    requires index { index.0 < length terms.old.nodes }
    requires sorts { IsSome (term_sort terms.old.shapes terms.old.decls (present (further (ToElement (tree terms.old index)) (target_in terms.old way.old.target)))) }
    ensures grows { Extends terms.old terms.new }
    ensures walk { Answers result (one (present (further (ToElement (tree terms.old index)) (target_in terms.old way.old.target)))) terms.old terms.new }
    ensures way { OnOk result (IsWay terms.new way.new) }
    ensures same { OnOk result (target_in terms.new way.new.target ≡ further (ToElement (tree terms.old index)) (target_in terms.old way.old.target)) }
{
    let element = select(terms, way.term, index);
    let element = limited(terms, element)?;
    way.target.path.push(Step::Index(index))?;
    way.term = element;
    Ok(())
}

// A step to a field.
pub(crate) fn to_field(terms: &mut Terms, way: &mut Way, f: Symbol) -> Result<(), GenFault>
    requires way { IsWay terms.old way.old }
    requires sorts { IsSome (term_sort terms.old.shapes terms.old.decls (present (further (ToField f) (target_in terms.old way.old.target)))) }
    ensures grows { Extends terms.old terms.new }
    ensures walk { Answers result (one (present (further (ToField f) (target_in terms.old way.old.target)))) terms.old terms.new }
    ensures way { OnOk result (IsWay terms.new way.new) }
    ensures same { OnOk result (target_in terms.new way.new.target ≡ further (ToField f) (target_in terms.old way.old.target)) }
{
    let value = field(terms, way.term, f);
    let value = limited(terms, value)?;
    way.target.path.push(Step::Field(f))?;
    way.term = value;
    Ok(())
}

// A step to the cell that a pointer leads to.
pub(crate) fn to_cell(
    alloc: Global,
    terms: &mut Terms,
    way: &mut Way,
    t: TypeId,
) -> Result<(), GenFault>
    requires way { IsWay terms.old way.old }
    requires class { t.0 < length terms.old.shapes }
    requires sorts { IsSome (term_sort terms.old.shapes terms.old.decls (present (cell_behind t (present (target_in terms.old way.old.target))))) }
    ensures grows { Extends terms.old terms.new }
    ensures walk { Answers result (one (present (cell_behind t (present (target_in terms.old way.old.target))))) terms.old terms.new }
    ensures way { OnOk result (IsWay terms.new way.new) }
    ensures same { OnOk result (target_in terms.new way.new.target ≡ cell_behind t (present (target_in terms.old way.old.target))) }
{
    let class = made(terms, Head::ClassVar(t, 0), &[])?;
    let content = cell(terms, class, way.term);
    let content = limited(terms, content)?;
    way.target = Target {
        root: class,
        pointer: Some(way.term),
        path: List::new(alloc),
    };
    way.term = content;
    Ok(())
}
