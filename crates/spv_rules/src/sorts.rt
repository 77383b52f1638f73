// Sorts of variables, and whether two are the same.

ghost use Rattle.std.specs.Prelude.{◌≡◌};
ghost use Rattle.spv_logic.specs.Sorts as spec;
ghost use Rattle.spv_logic.specs.Terms.{sort_eq};

use spv_logic::{Head, Sort};

/// Whether two sorts are the same.
pub(crate) fn same_sort(left: Sort, right: Sort) -> bool
    ensures { result ≡ sort_eq left right }
{
    left == right
}

/// The sort of a variable.
pub(crate) fn variable_sort(variable: Head) -> Sort
    ensures { result ≡ spec.variable_sort variable }
{
    match variable {
        Head::Var(_, sort, _) => sort,
        Head::ClassVar(class, _) => Sort::Class(class),
        Head::Start(_, sort) => sort,
        _ => Sort::Int,
    }
}
