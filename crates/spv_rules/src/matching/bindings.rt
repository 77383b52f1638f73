// The terms that variables have met.

ghost use Rattle.std.specs.Prelude.{◌≡◌, ◌++◌, [], ◌∷◌, IfOk, OnOk};
ghost use Rattle.spv_logic.specs.Terms.{head_eq};
ghost use Rattle.spv_rules.specs.matching.Views.{bound_id};

use spv_logic::Head;
use spv_logic::list::List;
use spv_term::TermId;
use std::alloc::{AllocError, Global};

// A variable with the term that it has met.
#[derive(Clone, Copy, Debug)]
pub(crate) struct Bound {
    pub(crate) variable: Head,
    pub(crate) term: TermId,
}

// Whether two heads are the same.
pub(crate) fn same_head(left: Head, right: Head) -> bool
    ensures { result ≡ head_eq left right }
{
    left == right
}

// The term that a variable has met.
pub(crate) fn bound_to(bound: &[Bound], variable: Head) -> Option<TermId>
    ensures { result ≡ bound_id bound.now variable }
{
    for one in bound {
        if same_head(one.variable, variable) {
            return Some(one.term);
        }
    }
    None
}

// A variable more, which has met a term.
pub(crate) fn with_bound(
    alloc: Global,
    bound: &[Bound],
    variable: Head,
    term: TermId,
) -> Result<List<Bound>, AllocError>
    ensures { IfOk result (λ b. b ≡ bound.now ++ (record { variable = variable; term = term }) ∷ []) }
{
    let mut more = Vec::new(alloc);
    more.extend_from_slice(bound)?;
    more.push(Bound { variable, term })?;
    Ok(List::from_vec(more))
}

// One match more.
pub(crate) fn put(found: &mut Vec<List<Bound>>, bound: List<Bound>) -> Result<(), AllocError>
    ensures { OnOk result (found.new.items ≡ found.old.items ++ bound ∷ []) }
{
    found.push(bound)?;
    Ok(())
}

// One match more, which is this one.
pub(crate) fn put_copy(
    alloc: Global,
    found: &mut Vec<List<Bound>>,
    bound: &[Bound],
) -> Result<(), AllocError>
    ensures { OnOk result (found.new.items ≡ found.old.items ++ bound.now ∷ []) }
{
    let copy = List::from_vec(bound.to_vec(alloc)?);
    put(found, copy)
}
