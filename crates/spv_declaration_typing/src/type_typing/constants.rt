// Constants, and names of types.

ghost use Rattle.std.specs.Prelude.{◌≡◌, IfOk, IfErr, Ok, option_map};
ghost use Rattle.spv_typing.specs.declared.faults.TypeFault.TheVariants.{Memory};
ghost use Rattle.spv_typing.specs.Known.{meaning};
ghost use Rattle.spv_typing.specs.TypeWalk as spec;
ghost use Rattle.spv_environments.specs.Answers.{Stops};
ghost use Rattle.spv_environments.specs.Scopes.{scope_of};

use spv_environments::{Meaning, Scope};
use spv_logic::TypeId;
use spv_tree::syntax::{Constant, Name, PlusOrMinus, Scalar};
use spv_typing::TypeFault;

fn constant_named(scope: &Scope<'_, '_>, line: u32, x: Name) -> Result<i64, TypeFault>
    ensures ok { IfOk result (λ z. spec.constant_named line x (meaning (scope_of scope.now) x.symbol) ≡ Ok z) }
    ensures err { IfErr result (λ e. Stops e (spec.constant_named line x (meaning (scope_of scope.now) x.symbol))) }
{
    match scope.meaning(x.symbol) {
        Some(Meaning::Constant(z)) => Ok(z),
        Some(_) => Err(TypeFault::WrongType(line)),
        None => Err(TypeFault::Undeclared(x.line, x.symbol)),
    }
}

fn scalar_value(scope: &Scope<'_, '_>, line: u32, value: Scalar) -> Result<i64, TypeFault>
    ensures ok { IfOk result (λ z. spec.scalar_value (scope_of scope.now) line value ≡ Ok z) }
    ensures err { IfErr result (λ e. Stops e (spec.scalar_value (scope_of scope.now) line value)) }
{
    match value {
        Scalar::Number(n) => Ok(n.value()),
        Scalar::Name(x) => constant_named(scope, line, x),
    }
}

// A number with its sign. The negation of a number fits where the number is a numeral or the negation of one.
fn signed(sign: Option<PlusOrMinus>, z: i64) -> Result<i64, TypeFault>
    ensures ok { IfOk result (λ n. n ≡ spec.signed sign z) }
    ensures err { IfErr result (λ e. e ≡ Memory) }
{
    match sign {
        Some(PlusOrMinus::Minus) => match z.checked_neg() {
            Some(n) => Ok(n),
            None => Err(TypeFault::Memory),
        },
        Some(PlusOrMinus::Plus) => Ok(z),
        None => Ok(z),
    }
}

/// The number of a constant.
pub fn constant(scope: &Scope<'_, '_>, tree: &Constant) -> Result<i64, TypeFault>
    ensures ok { IfOk result (λ z. spec.constant (scope_of scope.now) tree.now ≡ Ok z) }
    ensures err { IfErr result (λ e. Stops e (spec.constant (scope_of scope.now) tree.now)) }
{
    let value = scalar_value(scope, tree.line, tree.value)?;
    signed(tree.sign, value)
}

/// The type of a name.
pub fn type_named(scope: &Scope<'_, '_>, line: u32, x: Name) -> Result<TypeId, TypeFault>
    ensures ok { IfOk result (λ t. spec.type_named line x (meaning (scope_of scope.now) x.symbol) ≡ Ok t) }
    ensures err { IfErr result (λ e. Stops e (spec.type_named line x (meaning (scope_of scope.now) x.symbol))) }
{
    match scope.meaning(x.symbol) {
        Some(Meaning::Type(t)) => Ok(t),
        Some(_) => Err(TypeFault::WrongType(line)),
        None => Err(TypeFault::Undeclared(x.line, x.symbol)),
    }
}
