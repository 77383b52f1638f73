// The rows of forms as rows of numbers.

ghost use Rattle.std.specs.Prelude.{◌≡◌, ◌<◌, length, Some, slice_get, IfOk};
ghost use Rattle.spv_tableau_rules.specs.tableaux.Forms.{coefficient_in};
ghost use Rattle.spv_simplex.specs.Cells.{IsRowTo, AreRowsTo};

use crate::forms::{Parts, coefficient};
use spv_atoms::Linear;
use spv_dictionary::Row;
use spv_dictionary::checked_numbers::Number;
use std::alloc::{AllocError, Global};

// What a form multiplies a part by.
fn number(form: &Linear, parts: &Parts, place: usize) -> Number
    requires { place < length parts.now }
    ensures { result ≡ coefficient_in (Some form.now) (slice_get parts.now place) }
{
    Number::whole(coefficient(form, parts.id(place)))
}

// The row of a form.
fn row(alloc: Global, form: &Linear, parts: &Parts) -> Result<Row, AllocError>
    ensures { IfOk result (λ r. IsRowTo form.now parts.now (length parts.now) r) }
{
    let mut row = Row::zeros(alloc, parts.len())?;
    for place in 0..parts.len() {
        row.set(place, number(form, parts, place));
    }
    Ok(row)
}

// The rows of forms.
pub(crate) fn rows(alloc: Global, forms: &[Linear], parts: &Parts) -> Result<Vec<Row>, AllocError>
    ensures count { IfOk result (λ v. length v.items ≡ length forms.now) }
    ensures rows { IfOk result (λ v. AreRowsTo forms.now parts.now v.items) }
{
    let mut rows = Vec::new(alloc);
    for form in forms {
        rows.push(row(alloc, form, parts)?)?;
    }
    Ok(rows)
}
