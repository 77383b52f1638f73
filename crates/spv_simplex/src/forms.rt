// The forms of a tableau, and their parts.

ghost use Rattle.std.specs.Prelude.{◌≡◌, ℕ, ◌+◌, ◌<◌, ◌^◌, ◌↔◌, [], length, slice_get, slice_index_or, Some, IfOk, OnOk, IsTrue, drop};
ghost use Rattle.std.specs.List.{position, list_any};
ghost use Rattle.spv_frac.specs.rational.Rational.{whole};
ghost use Rattle.spv_frac.specs.Range.{fits};
ghost use Rattle.spv_atoms.specs.Order.{same_id, with_id};
ghost use Rattle.spv_atoms.specs.Linear.{IdForm, IsIdForm, coefficient_at};
ghost use Rattle.spv_tableau_rules.specs.tableaux.Rows.{columns};
ghost use Rattle.spv_tableau_rules.specs.tableaux.Forms.{with_parts, with_forms, part_ids, rows_of};

use indexmap::IndexSet;
use spv_atoms::Linear;
use spv_term::TermId;
use std::alloc::{AllocError, Global};
use std::marker::Model;

/// A linear form that a tableau keeps.
#[derive(Debug, Drop)]
pub(crate) struct Form {
    parts: Vec<(TermId, i128)>,
    constant: i128,
}

impl Model for Form {
    ghost use Rattle.spv_atoms.specs.Linear.{IdForm};

    ghost Value = { IdForm };

    ghost view = { λ f. record { parts = f.parts.items; constant = f.constant } };
}

impl Form {
    pub(crate) fn of(alloc: Global, form: &Linear) -> Result<Form, AllocError>
        ensures { IfOk result (λ f. f ≡ form.now) }
    {
        let mut parts = Vec::new(alloc);
        for part in form.parts() {
            parts.push(*part)?;
        }
        Ok(Form {
            parts,
            constant: form.constant(),
        })
    }
}

// The forms, kept.
pub(crate) fn forms_of(alloc: Global, forms: &[Linear]) -> Result<Vec<Form>, AllocError>
    ensures { IfOk result (λ v. v.items ≡ forms.now) }
{
    let mut kept = Vec::new(alloc);
    for form in forms {
        kept.push(Form::of(alloc, form)?)?;
    }
    Ok(kept)
}

/// The terms that the columns of parts stand for, in their order.
#[derive(Drop)]
pub(crate) struct Parts {
    ids: IndexSet<TermId>,
}

impl Model for Parts {
    ghost use Rattle.std.specs.Prelude.{List};
    ghost use Rattle.spv_logic.specs.declared.conditions.TermId.{TermId};

    ghost Value = { List TermId };

    ghost view = { λ s. s.ids.keys };
}

impl Parts {
    fn new(alloc: Global) -> Parts
        ensures { result ≡ [] }
    {
        Parts {
            ids: IndexSet::new(alloc),
        }
    }

    fn add(&mut self, t: TermId) -> Result<(), AllocError>
        ensures { OnOk result (self.new ≡ with_id self.old t) }
    {
        self.ids.insert_full(t)?;
        Ok(())
    }

    fn add_form(&mut self, form: &Linear) -> Result<(), AllocError>
        ensures { OnOk result (self.new ≡ with_parts self.old form.now.parts) }
    {
        for part in form.parts() {
            self.add(part.0)?;
        }
        Ok(())
    }

    // The parts of these forms.
    pub(crate) fn of(alloc: Global, forms: &[Linear]) -> Result<Parts, AllocError>
        ensures { IfOk result (λ p. p ≡ part_ids forms.now) }
    {
        let mut parts = Parts::new(alloc);
        for form in forms {
            parts.add_form(form)?;
        }
        Ok(parts)
    }

    // How many there are.
    pub(crate) fn len(&self) -> usize
        ensures { result ≡ length self.now }
    {
        self.ids.as_slice().len()
    }

    // The terms, in their order.
    pub(crate) fn ids(&self) -> &[TermId]
        ensures { result.now ≡ self.now }
    {
        self.ids.as_slice()
    }

    // The place of a term.
    pub(crate) fn place(&self, t: TermId) -> Option<usize>
        ensures { result ≡ position (same_id t) self.now }
    {
        self.ids.get_index_of(&t)
    }

    // The term at a place.
    pub(crate) fn id(&self, place: usize) -> TermId
        requires { place < length self.now }
        ensures { slice_get self.now place ≡ Some result }
    {
        self.ids.as_slice()[place]
    }
}

// What a form multiplies a term by.
pub(crate) fn coefficient(form: &Linear, t: TermId) -> i128
    ensures value { result ≡ coefficient_at form.now.parts t }
    ensures fits { IsTrue (fits result) }
{
    form.law_linear();
    for part in form.parts() {
        if part.0 == t {
            return part.1;
        }
    }
    0
}

/// Whether rows of these forms can be opened: they have fewer than 4294967296 columns.
pub fn can_open(alloc: Global, rows: &[Linear]) -> Result<bool, AllocError>
    ensures { IfOk result (λ b. IsTrue b ↔ (columns (rows_of rows.now) < 2 ^ 32)) }
{
    let parts = Parts::of(alloc, rows)?;
    Ok(is_few(parts.len(), rows.len()))
}

// Whether two numbers are fewer than 4294967296 in all.
fn is_few(parts: usize, rows: usize) -> bool
    ensures { IsTrue result ↔ (parts + rows < 2 ^ 32) }
{
    parts
        .checked_add(rows)
        .is_some_and(|count| count <= u32::MAX as usize)
}
