// Annotations as forms of the walk over formulas.

ghost use Rattle.std.specs.Prelude.{◌≡◌, refl, IfOk, IfErr, Ok};
ghost use Rattle.spv_program.specs.typed.FormulaViews.{annotation_of};
ghost use Rattle.spv_typing.specs.FormulaWalk as spec;
ghost use Rattle.spv_environments.specs.Answers.{Stops};
ghost use Rattle.spv_environments.specs.Scopes.{scope_of};

use crate::applying;
use crate::callee::{Callee, called};
use crate::naming::{class_at, name_alone};
use crate::selecting::{content_at, field_in, indexed_at};
use crate::settling::settled_formula;
use crate::sorted::{Sorted, boxed};
use spv_environments::Scope;
use spv_formula_typing::{Forms, Given, Operand, Way, formula};
use spv_logic::{Sort, TypeId};
use spv_program::typed::{Annotation, Formula, FormulaForm};
use spv_program::{Arithmetic, Comparison, Connective};
use spv_tree::syntax::Name;
use spv_typing::TypeFault;
use std::alloc::{AllocError, Global};

/// Annotations, where they stand.
#[derive(Clone, Copy)]
pub struct Annotations<'k, 'o> {
    /// The names that they see.
    pub scope: Scope<'k, 'o>,
}

impl<'k, 'o> Forms for Annotations<'k, 'o> {
    ghost use Rattle.spv_annotation_typing.specs.Applied.{way_in, applied_to};
    ghost use Rattle.std.specs.Prelude.{List};
    ghost use Rattle.spv_program.specs.Formulas.{Formula as FormulaText};
    ghost use Rattle.spv_typing.specs.Outcomes.{after};
    ghost use Rattle.spv_typing.specs.OperatorWalk.{Argument};
    ghost use Rattle.spv_formula_typing.specs.Operands.{operands_of};
    ghost use Rattle.spv_formula_typing.specs.Arguments.{given_as, all_given};

    type Formed = Formula;

    type Reached = Sorted;

    type Callee = Callee<'k>;

    ghost forms = { λ a. spec.formula_forms (scope_of a.scope) };

    ghost way_of = { λ a c n. way_in c n };

    ghost applied_to = { λ a line x c gs. applied_to (scope_of a.scope) line c gs };

    ghost indexed_at = { λ a line r os. spec.indexed_at (scope_of a.scope) line r os };

    fn numeral(&self, n: i64) -> Formula {
        Formula {
            form: FormulaForm::Numeral(n),
        }
    }

    fn boolean(&self, value: bool) -> Formula {
        Formula {
            form: FormulaForm::Boolean(value),
        }
    }

    fn nil_of(&self, t: TypeId) -> Formula {
        Formula {
            form: FormulaForm::Nil(t),
        }
    }

    fn negative_of(&self, alloc: Global, a: Formula) -> Result<Formula, AllocError> {
        let form = FormulaForm::Negative(boxed(alloc, a)?);
        Ok(Formula { form })
    }

    fn calculated(
        &self,
        alloc: Global,
        o: Arithmetic,
        a: Formula,
        b: Formula,
    ) -> Result<Formula, AllocError> {
        let left = boxed(alloc, a)?;
        let right = boxed(alloc, b)?;
        Ok(Formula {
            form: FormulaForm::Calculated(o, left, right),
        })
    }

    fn compares(
        &self,
        alloc: Global,
        o: Comparison,
        a: Formula,
        b: Formula,
    ) -> Result<Formula, AllocError> {
        let left = boxed(alloc, a)?;
        let right = boxed(alloc, b)?;
        Ok(Formula {
            form: FormulaForm::Compared(o, left, right),
        })
    }

    fn negated(&self, alloc: Global, a: Formula) -> Result<Formula, AllocError> {
        let form = FormulaForm::Negated(boxed(alloc, a)?);
        Ok(Formula { form })
    }

    fn joined(
        &self,
        alloc: Global,
        o: Connective,
        a: Formula,
        b: Formula,
    ) -> Result<Formula, AllocError> {
        let left = boxed(alloc, a)?;
        let right = boxed(alloc, b)?;
        Ok(Formula {
            form: FormulaForm::Joined(o, left, right),
        })
    }

    fn may_imply(&self) -> bool {
        true
    }

    fn implied(&self, alloc: Global, a: Formula, b: Formula) -> Result<Formula, AllocError> {
        let left = boxed(alloc, a)?;
        let right = boxed(alloc, b)?;
        Ok(Formula {
            form: FormulaForm::Implied(left, right),
        })
    }

    fn comparable(&self, _of: Sort) -> bool {
        true
    }

    fn class_of(&self, line: u32, x: Name) -> Result<Operand<Formula>, TypeFault> {
        class_at(&self.scope, line, x)
    }

    #[inline(never)]
    fn begin(&self, alloc: Global, line: u32, x: Name) -> Result<Sorted, TypeFault> {
        name_alone(&self.scope, alloc, line, x)
    }

    #[inline(never)]
    fn begin_written(&self, alloc: Global, line: u32, x: Name) -> Result<Sorted, TypeFault> {
        name_alone(&self.scope, alloc, line, x)
    }

    #[inline(never)]
    fn callee(&self, line: u32, x: Name) -> Result<Callee<'k>, TypeFault>
        ensures ok { IfOk result (λ c. (given : List (Argument FormulaText spec.Sorted)) →
            spec.applied (scope_of self.now.scope) line x given ≡ after (given_as (way_in c) 0 given) (applied_to (scope_of self.now.scope) line c)) }
        ensures err { IfErr result (λ e. (given : List (Argument FormulaText spec.Sorted)) → Stops e (spec.applied (scope_of self.now.scope) line x given)) }
    {
        called(&self.scope, line, x)
    }

    fn way(&self, callee: &Callee<'k>, place: usize) -> Way {
        callee.way(place)
    }

    #[inline(never)]
    fn applied(
        &self,
        alloc: Global,
        line: u32,
        _x: Name,
        callee: Callee<'k>,
        given: Vec<(u32, Given<Formula, Sorted>)>,
    ) -> Result<Sorted, TypeFault>
        ensures ok { IfOk result (λ r. applied_to (scope_of self.now.scope) line callee.entry (all_given given.items) ≡ Ok r) }
        ensures err { IfErr result (λ e. Stops e (applied_to (scope_of self.now.scope) line callee.entry (all_given given.items))) }
    {
        applying::applied(&self.scope, alloc, line, callee, given)
    }

    #[inline(never)]
    fn indexed(
        &self,
        alloc: Global,
        line: u32,
        reached: Sorted,
        indices: Vec<(u32, Operand<Formula>)>,
    ) -> Result<Sorted, TypeFault>
        ensures ok { IfOk result (λ r. spec.indexed_at (scope_of self.now.scope) line reached (operands_of indices.items) ≡ Ok r) }
        ensures err { IfErr result (λ e. Stops e (spec.indexed_at (scope_of self.now.scope) line reached (operands_of indices.items))) }
    {
        indexed_at(self.scope.known, alloc, line, reached, indices)
    }

    #[inline(never)]
    fn field_of(
        &self,
        alloc: Global,
        line: u32,
        reached: Sorted,
        x: Name,
    ) -> Result<Sorted, TypeFault> {
        field_in(self.scope.known, alloc, line, reached, x)
    }

    #[tactic(auto, using(crate::proofs::Contents::content_is))]
    #[inline(never)]
    fn content_of(
        &self,
        alloc: Global,
        line: u32,
        at: u32,
        reached: Sorted,
    ) -> Result<Sorted, TypeFault> {
        content_at(self.scope.known, alloc, line, at, reached)
    }

    #[inline(never)]
    fn finish(&self, _alloc: Global, reached: Sorted) -> Result<Operand<Formula>, AllocError> {
        let of = reached.sort();
        Ok(Operand::Of(reached.into_formula(), of))
    }

    ghost indexes = { λ s line r given. refl };
}

/// The annotation of a formula's tree, or the first fault in it. An annotation is a truth value.
pub fn annotation(
    scope: &Scope<'_, '_>,
    alloc: Global,
    tree: &spv_tree::syntax::Formula,
) -> Result<Annotation, TypeFault>
    ensures ok { IfOk result (λ a. spec.annotation (scope_of scope.now) tree.now ≡ Ok (annotation_of a)) }
    ensures err { IfErr result (λ e. Stops e (spec.annotation (scope_of scope.now) tree.now)) }
{
    let line = tree.line();
    let operand = formula(&Annotations { scope: *scope }, alloc, tree)?;
    let formula = settled_formula(line, Sort::Bool, operand)?;
    Ok(Annotation { formula, line })
}
