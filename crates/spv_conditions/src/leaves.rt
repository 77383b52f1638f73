// Assignments, NEW, calls and expressions of a well typed program, as leaves of the walk over statements.

ghost use Rattle.std.specs.Prelude.{IsTrue};
ghost use Rattle.spv_program.specs.Typing.{well_typed};
ghost use Rattle.spv_conditions.specs.Leaves.{leaf_making, leaf_taking};

use spv_assign::Pending;
use spv_assign::creation_trace::GenFault;
use spv_assign::supply::Supply;
use spv_effects::mod_sets::{all_roots, changed};
use spv_flow_parts::assigning::{before_assign, before_new};
use spv_flow_parts::calls::{before_call, value};
use spv_flow_parts::leaves::{Leaves, Valued, in_front};
use spv_flow_parts::{Body, IndexedProgram, note};
use spv_logic::Head;
use spv_program::typed::{Annotation, Expression, Statement, StatementForm};
use spv_term::{TermId, Terms};

/// Leaves that take each assignment, NEW, call and expression of a well typed program.
#[derive(Clone, Copy, Debug)]
pub(crate) struct ProgramLeaves;

impl Leaves for ProgramLeaves {
    ghost takes = { leaf_taking };

    ghost making = { leaf_making };

    ghost fits = { λ leaves p here. IsTrue (well_typed p) };

    fn leaf(
        &mut self,
        program: &IndexedProgram<'_>,
        body: &Body<'_>,
        terms: &mut Terms,
        supply: &mut Supply,
        s: &Statement,
        rest: Pending,
    ) -> Result<Pending, GenFault> {
        match &s.form {
            StatementForm::Assign(d, e) => before_assign(program, body, terms, supply, d, e, rest),
            StatementForm::Perform(c) => before_call(program, body, terms, supply, c, rest),
            StatementForm::New(_, d, t) => before_new(program, body, terms, supply, d, *t, rest),
            StatementForm::Block(_) => unreachable!(),
            StatementForm::If(_, _, _, _) => unreachable!(),
            StatementForm::Case(_, _, _) => unreachable!(),
            StatementForm::While(_, _, _, _) => unreachable!(),
            StatementForm::Repeat(_, _, _, _) => unreachable!(),
            StatementForm::For(_, _, _, _) => unreachable!(),
            StatementForm::Assert(_) => unreachable!(),
        }
    }

    fn test(
        &mut self,
        program: &IndexedProgram<'_>,
        body: &Body<'_>,
        terms: &mut Terms,
        supply: &mut Supply,
        e: &Expression,
    ) -> Result<Valued, GenFault> {
        value(program, body, terms, supply, e)
    }

    fn before_test(
        &mut self,
        program: &IndexedProgram<'_>,
        body: &Body<'_>,
        tested: &Valued,
        rest: Pending,
    ) -> Result<Pending, GenFault> {
        let _ = program;
        in_front(body.alloc, body.here, tested.calls.as_slice(), rest)
    }

    fn note(
        &mut self,
        program: &IndexedProgram<'_>,
        body: &Body<'_>,
        terms: &mut Terms,
        a: &Annotation,
    ) -> Result<TermId, GenFault> {
        note(program, body, terms, a)
    }

    fn changed(
        &mut self,
        program: &IndexedProgram<'_>,
        body: &Body<'_>,
        s: &Statement,
    ) -> Result<Vec<Head>, GenFault> {
        let roots = all_roots(body.alloc, program.program(), body.here)?;
        Ok(changed(body.alloc, program.program(), body.here, &roots, s)?)
    }
}
