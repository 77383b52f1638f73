// Arrays of arrays.

ghost use Rattle.std.specs.Prelude.{◌≡◌, [], Ok, IfOk, IfErr, OnOk};
ghost use Rattle.spv_typing.specs.declared.faults.TypeFault.TheVariants.{Memory};
ghost use Rattle.spv_typing.specs.TypeWalk as spec;
ghost use Rattle.spv_environments.specs.Answers.{Stops};
ghost use Rattle.spv_declaration_typing.specs.type_typing.Reading.{types_of, read_as, indices_of};
ghost use Rattle.spv_declaration_typing.specs.type_typing.Simple.{nested_walk, indices_checked};

use crate::pointer_types::Written;
use crate::type_typing::targets::{add_type, is_range};
use spv_environments::Scope;
use spv_logic::TypeId;
use spv_program::TypeForm;
use spv_typing::TypeFault;

/// An index type of an array, and the line on which it begins.
#[derive(Clone, Copy)]
pub struct Index {
    /// The type.
    pub of: TypeId,
    /// The line.
    pub line: u32,
}

// Each index is of a subrange.
fn check_indices(scope: &Scope<'_, '_>, new: &[Written], indices: &[Index]) -> Result<(), TypeFault>
    ensures ok { OnOk result (indices_checked scope.now new.now indices.now ≡ Ok (indices_of indices.now)) }
    ensures err { IfErr result (λ e. Stops e (indices_checked scope.now new.now indices.now)) }
{
    for index in indices {
        if !is_range(scope, new, index.of) {
            return Err(TypeFault::WrongType(index.line));
        }
    }
    Ok(())
}

// An array of arrays, the last index innermost.
fn nested(
    scope: &Scope<'_, '_>,
    new: &mut Vec<Written>,
    indices: &[Index],
    element: TypeId,
) -> Result<TypeId, TypeFault>
    ensures ok { IfOk result (λ t. spec.nested (types_of scope.now new.old.items) (indices_of indices.now) element ≡ read_as scope.now new.new.items t) }
    ensures err { IfErr result (λ e. e ≡ Memory) }
{
    let mut inner = element;
    for place in (0..indices.len()).rev() {
        let form = TypeForm::Array(indices[place].of, inner);
        inner = add_type(scope, new, Written::Built(form))?;
    }
    Ok(inner)
}

/// An array of arrays, where each index is of a subrange.
pub(crate) fn nested_if_ranges(
    scope: &Scope<'_, '_>,
    new: &mut Vec<Written>,
    indices: &[Index],
    element: TypeId,
) -> Result<TypeId, TypeFault>
    ensures ok { IfOk result (λ t. nested_walk scope.now new.old.items indices.now element ≡ Ok (read_as scope.now new.new.items t)) }
    ensures err { IfErr result (λ e. Stops e (nested_walk scope.now new.old.items indices.now element)) }
{
    check_indices(scope, new.as_slice(), indices)?;
    nested(scope, new, indices, element)
}
