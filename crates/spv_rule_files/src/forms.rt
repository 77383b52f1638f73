// Rules as forms of the walk over formulas.

ghost use Rattle.std.specs.Prelude.{◌≡◌, refl, IfOk, IfErr, Ok};
ghost use Rattle.spv_typing.specs.FormulaWalk as annotations;
ghost use Rattle.spv_typing.specs.Known.{meaning};
ghost use Rattle.spv_environments.specs.Answers.{Stops};
ghost use Rattle.spv_environments.specs.Scopes.{scope_of};
ghost use Rattle.spv_rule_files.specs.Forms as spec;

use spv_annotation_typing::{Annotations, Callee, Sorted};
use spv_environments::Scope;
use spv_formula_typing::{Forms, Given, Operand, Way};
use spv_logic::{Sort, TypeId};
use spv_program::typed::Formula;
use spv_program::{Arithmetic, Comparison, Connective};
use spv_tree::syntax::Name;
use spv_typing::TypeFault;
use std::alloc::{AllocError, Global};

// The formulas of rules, where they stand.
#[derive(Clone, Copy)]
pub(crate) struct RuleForms<'k, 'o> {
    pub(crate) annotations: Annotations<'k, 'o>,
}

// A class, which has no place in a rule; its name is looked at first.
fn no_class(scope: &Scope<'_, '_>, line: u32, x: Name) -> TypeFault
    ensures { Stops result (spec.no_class line x (meaning (scope_of scope.now) x.symbol)) }
{
    match scope.meaning(x.symbol) {
        Some(_) => TypeFault::WrongType(line),
        None => TypeFault::Undeclared(x.line, x.symbol),
    }
}

impl<'k, 'o> Forms for RuleForms<'k, 'o> {
    ghost use Rattle.spv_annotation_typing.specs.Applied.{way_in, applied_to};
    ghost use Rattle.std.specs.Prelude.{List};
    ghost use Rattle.spv_program.specs.Formulas.{Formula as FormulaText};
    ghost use Rattle.spv_typing.specs.Outcomes.{after};
    ghost use Rattle.spv_typing.specs.OperatorWalk.{Argument};
    ghost use Rattle.spv_formula_typing.specs.Operands.{operands_of};
    ghost use Rattle.spv_formula_typing.specs.Arguments.{given_as, all_given};

    type Formed = Formula;

    type Reached = Sorted;

    type Callee = Callee<'k>;

    ghost forms = { λ r. spec.rule_forms (scope_of r.annotations.scope) };

    ghost way_of = { λ r c n. way_in c n };

    ghost applied_to = { λ r line x c gs. applied_to (scope_of r.annotations.scope) line c gs };

    ghost indexed_at = { λ r line q os. annotations.indexed_at (scope_of r.annotations.scope) line q os };

    fn numeral(&self, n: i64) -> Formula {
        self.annotations.numeral(n)
    }

    fn boolean(&self, value: bool) -> Formula {
        self.annotations.boolean(value)
    }

    fn nil_of(&self, t: TypeId) -> Formula {
        self.annotations.nil_of(t)
    }

    fn negative_of(&self, alloc: Global, a: Formula) -> Result<Formula, AllocError> {
        self.annotations.negative_of(alloc, a)
    }

    fn calculated(
        &self,
        alloc: Global,
        o: Arithmetic,
        a: Formula,
        b: Formula,
    ) -> Result<Formula, AllocError> {
        self.annotations.calculated(alloc, o, a, b)
    }

    fn compares(
        &self,
        alloc: Global,
        o: Comparison,
        a: Formula,
        b: Formula,
    ) -> Result<Formula, AllocError> {
        self.annotations.compares(alloc, o, a, b)
    }

    fn negated(&self, alloc: Global, a: Formula) -> Result<Formula, AllocError> {
        self.annotations.negated(alloc, a)
    }

    fn joined(
        &self,
        alloc: Global,
        o: Connective,
        a: Formula,
        b: Formula,
    ) -> Result<Formula, AllocError> {
        self.annotations.joined(alloc, o, a, b)
    }

    fn may_imply(&self) -> bool {
        true
    }

    fn implied(&self, alloc: Global, a: Formula, b: Formula) -> Result<Formula, AllocError> {
        self.annotations.implied(alloc, a, b)
    }

    fn comparable(&self, _of: Sort) -> bool {
        true
    }

    fn class_of(&self, line: u32, x: Name) -> Result<Operand<Formula>, TypeFault> {
        Err(no_class(&self.annotations.scope, line, x))
    }

    #[inline(never)]
    fn begin(&self, alloc: Global, line: u32, x: Name) -> Result<Sorted, TypeFault> {
        self.annotations.begin(alloc, line, x)
    }

    #[inline(never)]
    fn begin_written(&self, alloc: Global, line: u32, x: Name) -> Result<Sorted, TypeFault> {
        self.annotations.begin_written(alloc, line, x)
    }

    #[inline(never)]
    fn callee(&self, line: u32, x: Name) -> Result<Callee<'k>, TypeFault>
        ensures ok { IfOk result (λ c. (given : List (Argument FormulaText annotations.Sorted)) →
            annotations.applied (scope_of self.now.annotations.scope) line x given ≡ after (given_as (way_in c) 0 given) (applied_to (scope_of self.now.annotations.scope) line c)) }
        ensures err { IfErr result (λ e. (given : List (Argument FormulaText annotations.Sorted)) → Stops e (annotations.applied (scope_of self.now.annotations.scope) line x given)) }
    {
        self.annotations.callee(line, x)
    }

    fn way(&self, callee: &Callee<'k>, place: usize) -> Way {
        self.annotations.way(callee, place)
    }

    #[inline(never)]
    fn applied(
        &self,
        alloc: Global,
        line: u32,
        x: Name,
        callee: Callee<'k>,
        given: Vec<(u32, Given<Formula, Sorted>)>,
    ) -> Result<Sorted, TypeFault>
        ensures ok { IfOk result (λ r. applied_to (scope_of self.now.annotations.scope) line callee.entry (all_given given.items) ≡ Ok r) }
        ensures err { IfErr result (λ e. Stops e (applied_to (scope_of self.now.annotations.scope) line callee.entry (all_given given.items))) }
    {
        self.annotations.applied(alloc, line, x, callee, given)
    }

    #[inline(never)]
    fn indexed(
        &self,
        alloc: Global,
        line: u32,
        reached: Sorted,
        indices: Vec<(u32, Operand<Formula>)>,
    ) -> Result<Sorted, TypeFault>
        ensures ok { IfOk result (λ r. annotations.indexed_at (scope_of self.now.annotations.scope) line reached (operands_of indices.items) ≡ Ok r) }
        ensures err { IfErr result (λ e. Stops e (annotations.indexed_at (scope_of self.now.annotations.scope) line reached (operands_of indices.items))) }
    {
        self.annotations.indexed(alloc, line, reached, indices)
    }

    #[inline(never)]
    fn field_of(
        &self,
        alloc: Global,
        line: u32,
        reached: Sorted,
        x: Name,
    ) -> Result<Sorted, TypeFault> {
        self.annotations.field_of(alloc, line, reached, x)
    }

    fn content_of(
        &self,
        _alloc: Global,
        line: u32,
        _at: u32,
        _reached: Sorted,
    ) -> Result<Sorted, TypeFault> {
        Err(TypeFault::WrongType(line))
    }

    #[inline(never)]
    fn finish(&self, alloc: Global, reached: Sorted) -> Result<Operand<Formula>, AllocError> {
        self.annotations.finish(alloc, reached)
    }

    ghost indexes = { λ r line q given. refl };
}
