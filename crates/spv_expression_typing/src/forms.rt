// Expressions as forms of the walk over formulas.

ghost use Rattle.std.specs.Prelude.{◌≡◌, refl, IfOk, IfErr, Ok};
ghost use Rattle.spv_typing.specs.ExpressionWalk as spec;
ghost use Rattle.spv_environments.specs.Answers.{Stops};
ghost use Rattle.spv_environments.specs.Scopes.{scope_of};
ghost use Rattle.spv_formula_typing.specs.Operands.{operand_of};

use crate::applying;
use crate::callee::{Callee, called};
use crate::naming::{class_fault, name_read, name_written};
use crate::reached::{Reached, boxed};
use crate::selecting::{content_at, field_at, indexed_at};
use crate::settling::settled_expression;
use spv_environments::Scope;
use spv_formula_typing::{Forms, Given, Operand, Way, formula};
use spv_logic::{Sort, TypeId};
use spv_program::typed::{Expression, ExpressionForm};
use spv_program::{Arithmetic, Comparison, Connective};
use spv_tree::syntax::{Designator, Name};
use spv_typing::TypeFault;
use std::alloc::{AllocError, Global};

/// Expressions, where they stand.
#[derive(Clone, Copy)]
pub struct Expressions<'k, 'o> {
    /// The names that they see.
    pub scope: Scope<'k, 'o>,
}

impl<'k, 'o> Forms for Expressions<'k, 'o> {
    ghost use Rattle.spv_expression_typing.specs.Applied.{way_in, applied_to};
    ghost use Rattle.std.specs.Prelude.{List};
    ghost use Rattle.spv_program.specs.Expressions.{Expression as ExpressionText};
    ghost use Rattle.spv_typing.specs.Outcomes.{after};
    ghost use Rattle.spv_typing.specs.Known.{function};
    ghost use Rattle.spv_typing.specs.OperatorWalk.{Argument};
    ghost use Rattle.spv_formula_typing.specs.Operands.{operands_of};
    ghost use Rattle.spv_formula_typing.specs.Arguments.{given_as, all_given};

    type Formed = Expression;

    type Reached = Reached;

    type Callee = Callee<'k>;

    ghost forms = { λ e. spec.expression_forms (scope_of e.scope) };

    ghost way_of = { λ e c n. way_in c n };

    ghost applied_to = { λ e line x c gs. applied_to (scope_of e.scope) line x c gs };

    ghost indexed_at = { λ e line r os. spec.indexed_at (scope_of e.scope) line r os };

    fn numeral(&self, n: i64) -> Expression {
        Expression {
            form: ExpressionForm::Numeral(n),
        }
    }

    fn boolean(&self, value: bool) -> Expression {
        Expression {
            form: ExpressionForm::Boolean(value),
        }
    }

    fn nil_of(&self, t: TypeId) -> Expression {
        Expression {
            form: ExpressionForm::Nil(t),
        }
    }

    fn negative_of(&self, alloc: Global, a: Expression) -> Result<Expression, AllocError> {
        let form = ExpressionForm::Negative(boxed(alloc, a)?);
        Ok(Expression { form })
    }

    fn calculated(
        &self,
        alloc: Global,
        o: Arithmetic,
        a: Expression,
        b: Expression,
    ) -> Result<Expression, AllocError> {
        let left = boxed(alloc, a)?;
        let right = boxed(alloc, b)?;
        Ok(Expression {
            form: ExpressionForm::Calculated(o, left, right),
        })
    }

    fn compares(
        &self,
        alloc: Global,
        o: Comparison,
        a: Expression,
        b: Expression,
    ) -> Result<Expression, AllocError> {
        let left = boxed(alloc, a)?;
        let right = boxed(alloc, b)?;
        Ok(Expression {
            form: ExpressionForm::Compared(o, left, right),
        })
    }

    fn negated(&self, alloc: Global, a: Expression) -> Result<Expression, AllocError> {
        let form = ExpressionForm::Negated(boxed(alloc, a)?);
        Ok(Expression { form })
    }

    fn joined(
        &self,
        alloc: Global,
        o: Connective,
        a: Expression,
        b: Expression,
    ) -> Result<Expression, AllocError> {
        let left = boxed(alloc, a)?;
        let right = boxed(alloc, b)?;
        Ok(Expression {
            form: ExpressionForm::Joined(o, left, right),
        })
    }

    fn may_imply(&self) -> bool {
        false
    }

    fn implied(
        &self,
        _alloc: Global,
        a: Expression,
        _b: Expression,
    ) -> Result<Expression, AllocError> {
        Ok(a)
    }

    fn comparable(&self, of: Sort) -> bool {
        match of {
            Sort::Int => true,
            Sort::Bool => true,
            Sort::Ptr(_) => true,
            _ => false,
        }
    }

    fn class_of(&self, line: u32, x: Name) -> Result<Operand<Expression>, TypeFault> {
        Err(class_fault(&self.scope, line, x))
    }

    #[inline(never)]
    fn begin(&self, alloc: Global, line: u32, x: Name) -> Result<Reached, TypeFault> {
        name_read(&self.scope, alloc, line, x)
    }

    #[inline(never)]
    fn begin_written(&self, alloc: Global, line: u32, x: Name) -> Result<Reached, TypeFault> {
        name_written(&self.scope, alloc, line, x)
    }

    #[inline(never)]
    fn callee(&self, line: u32, x: Name) -> Result<Callee<'k>, TypeFault>
        ensures ok { IfOk result (λ c. (given : List (Argument ExpressionText spec.Reached)) →
            spec.applied_of (scope_of self.now.scope) line x (function (scope_of self.now.scope) x.symbol) given
            ≡ after (given_as (way_in c) 0 given) (applied_to (scope_of self.now.scope) line x c)) }
        ensures err { IfErr result (λ e. (given : List (Argument ExpressionText spec.Reached)) →
            Stops e (spec.applied_of (scope_of self.now.scope) line x (function (scope_of self.now.scope) x.symbol) given)) }
    {
        called(&self.scope, line, x)
    }

    fn way(&self, callee: &Callee<'k>, place: usize) -> Way {
        callee.way(place)
    }

    #[inline(never)]
    fn applied(
        &self,
        alloc: Global,
        line: u32,
        x: Name,
        callee: Callee<'k>,
        given: Vec<(u32, Given<Expression, Reached>)>,
    ) -> Result<Reached, TypeFault>
        ensures ok { IfOk result (λ r. applied_to (scope_of self.now.scope) line x callee.entry (all_given given.items) ≡ Ok r) }
        ensures err { IfErr result (λ e. Stops e (applied_to (scope_of self.now.scope) line x callee.entry (all_given given.items))) }
    {
        applying::applied(&self.scope, alloc, line, x, callee, given)
    }

    #[inline(never)]
    fn indexed(
        &self,
        alloc: Global,
        line: u32,
        reached: Reached,
        indices: Vec<(u32, Operand<Expression>)>,
    ) -> Result<Reached, TypeFault>
        ensures ok { IfOk result (λ r. spec.indexed_at (scope_of self.now.scope) line reached (operands_of indices.items) ≡ Ok r) }
        ensures err { IfErr result (λ e. Stops e (spec.indexed_at (scope_of self.now.scope) line reached (operands_of indices.items))) }
    {
        indexed_at(self.scope.known, alloc, line, reached, indices)
    }

    #[inline(never)]
    fn field_of(
        &self,
        _alloc: Global,
        line: u32,
        reached: Reached,
        x: Name,
    ) -> Result<Reached, TypeFault> {
        field_at(self.scope.known, line, reached, x)
    }

    #[inline(never)]
    fn content_of(
        &self,
        _alloc: Global,
        line: u32,
        at: u32,
        reached: Reached,
    ) -> Result<Reached, TypeFault> {
        content_at(self.scope.known, line, at, reached)
    }

    #[inline(never)]
    fn finish(&self, alloc: Global, reached: Reached) -> Result<Operand<Expression>, AllocError> {
        let known = self.scope.known;
        let of = known.sort_of(reached.of());
        Ok(Operand::Of(reached.into_expression(alloc)?, of))
    }

    ghost indexes = { λ s line r given. refl };
}

/// The expression of a formula's tree, which may be of any sort, NIL included, or the first fault in it.
pub fn operand(
    scope: &Scope<'_, '_>,
    alloc: Global,
    tree: &spv_tree::syntax::Formula,
) -> Result<Operand<Expression>, TypeFault>
    ensures ok { IfOk result (λ o. spec.operand (scope_of scope.now) tree.now ≡ Ok (operand_of o)) }
    ensures err { IfErr result (λ e. Stops e (spec.operand (scope_of scope.now) tree.now)) }
{
    formula(&Expressions { scope: *scope }, alloc, tree)
}

/// The expression of a formula's tree, of this sort, or the first fault in it.
pub fn expression_of(
    scope: &Scope<'_, '_>,
    alloc: Global,
    wanted: Sort,
    tree: &spv_tree::syntax::Formula,
) -> Result<Expression, TypeFault>
    ensures ok { IfOk result (λ x. spec.expression_of (scope_of scope.now) wanted tree.now ≡ Ok x) }
    ensures err { IfErr result (λ e. Stops e (spec.expression_of (scope_of scope.now) wanted tree.now)) }
{
    let line = tree.line();
    let found = operand(scope, alloc, tree)?;
    settled_expression(line, wanted, found)
}

/// What a designator that is written comes to, or the first fault in it.
pub fn written(
    scope: &Scope<'_, '_>,
    alloc: Global,
    tree: &Designator,
) -> Result<Reached, TypeFault>
    ensures ok { IfOk result (λ r. spec.written (scope_of scope.now) tree.now ≡ Ok r) }
    ensures err { IfErr result (λ e. Stops e (spec.written (scope_of scope.now) tree.now)) }
{
    spv_formula_typing::written(&Expressions { scope: *scope }, alloc, tree)
}
