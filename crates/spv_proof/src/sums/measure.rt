// The forms of differences of terms.

ghost use Rattle.std.specs.Prelude.{◌≡◌, ◌<◌, length, IfOk};
ghost use Rattle.spv_term.specs.Arena.{tree, IsArena};
ghost use Rattle.spv_proof.specs.sums.Differences.{IsNarrowForm, IsMeasure};

use crate::sums::difference::{Form, difference};
use spv_atoms::{AtomFault, Linear, linear};
use spv_term::{TermId, Terms};
use std::alloc::{AllocError, Global};

// The form of a term; `None` where one of its forms does not fit.
fn narrow_form(alloc: Global, terms: &Terms, t: TermId) -> Result<Option<Linear>, AllocError>
    requires { t.0 < length terms.now.nodes }
    ensures form { IfOk result (λ form. IsNarrowForm terms.now (tree terms.now t) form) }
{
    match linear(alloc, terms, t) {
        Ok(form) => Ok(Some(form)),
        Err(AtomFault::WideForm(_)) => Ok(None),
        Err(AtomFault::Memory) => Err(AllocError),
    }
}

// The form of a difference of two terms, or of 1 more; `None` where it does not fit, or one of theirs.
pub(crate) fn form_of(
    alloc: Global,
    terms: &Terms,
    left: TermId,
    right: TermId,
    is_above: bool,
) -> Result<Option<Form>, AllocError>
    requires left { left.0 < length terms.now.nodes }
    requires right { right.0 < length terms.now.nodes }
    ensures form { IfOk result (λ form. IsMeasure terms.now (tree terms.now left) (tree terms.now right) is_above form) }
{
    terms.law_arena();
    let Some(left_form) = narrow_form(alloc, terms, left)? else {
        return Ok(None);
    };
    let Some(right_form) = narrow_form(alloc, terms, right)? else {
        return Ok(None);
    };
    match difference(alloc, &left_form, &right_form, is_above)? {
        Some(form) => {
            form.law_form();
            Ok(Some(form))
        }
        None => Ok(None),
    }
}
