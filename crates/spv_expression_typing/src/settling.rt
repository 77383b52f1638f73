// Operands of wanted sorts.

ghost use Rattle.std.specs.Prelude.{◌≡◌, IfOk, IfErr, Ok};
ghost use Rattle.spv_program.specs.Expressions.{NilOf};
ghost use Rattle.spv_typing.specs.Outcomes.{wrong};
ghost use Rattle.spv_typing.specs.OperatorWalk as spec;
ghost use Rattle.spv_environments.specs.Answers.{Stops};
ghost use Rattle.spv_formula_typing.specs.Operands.{operand_of};

use spv_formula_typing::Operand;
use spv_logic::Sort;
use spv_program::typed::{Expression, ExpressionForm};
use spv_typing::TypeFault;

/// The expression, where it is of this sort; NIL is one of each pointer sort. Else the fault is told at the line.
pub fn settled_expression(
    line: u32,
    wanted: Sort,
    operand: Operand<Expression>,
) -> Result<Expression, TypeFault>
    ensures ok { IfOk result (λ x. spec.settled NilOf (wrong line) wanted (operand_of operand) ≡ Ok x) }
    ensures err { IfErr result (λ e. Stops e (spec.settled NilOf (wrong line) wanted (operand_of operand))) }
{
    match operand {
        Operand::Of(x, sort) => {
            if sort == wanted {
                Ok(x)
            } else {
                Err(TypeFault::WrongType(line))
            }
        }
        Operand::Nil(_) => match wanted {
            Sort::Ptr(t) => Ok(Expression {
                form: ExpressionForm::Nil(t),
            }),
            _ => Err(TypeFault::WrongType(line)),
        },
    }
}
