// The sorts of types.

ghost use Rattle.std.specs.Prelude.{◌≡◌};
ghost use Rattle.spv_program.specs.Types.{sort_of, sort_of_form};

use spv_logic::{Sort, TypeId};
use spv_program::TypeForm;

fn sort_of_form(form: &TypeForm, t: TypeId) -> Sort
    ensures { result ≡ sort_of_form form.now t }
{
    match form {
        TypeForm::Integer => Sort::Int,
        TypeForm::Boolean => Sort::Bool,
        TypeForm::Range(_, _) => Sort::Int,
        TypeForm::Pointer(u) => Sort::Ptr(*u),
        TypeForm::Array(_, _) => Sort::Whole(t),
        TypeForm::Record(_) => Sort::Whole(t),
    }
}

/// The sort of the values of a type.
pub fn sort_of(forms: &[TypeForm], t: TypeId) -> Sort
    ensures { result ≡ sort_of forms.now t }
{
    match forms.get(t.0 as usize) {
        Some(form) => sort_of_form(form, t),
        None => Sort::Whole(t),
    }
}
