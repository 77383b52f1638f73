// The forms of types, where each pointer type is found by its target.

ghost use Rattle.std.specs.Prelude.{◌≡◌, ◌<◌, [], ◌∷◌, ◌++◌, length, slice_get, slice_set, slice_index_or, replicate, is_some, not, nat_lt, true, IsTrue, IfOk, IfSome, OnOk};
ghost use Rattle.std.specs.List.{list_all};
ghost use Rattle.spv_program.specs.Types as types;
ghost use Rattle.spv_environments.specs.Indexed.{built_below, noted, is_alone, IsIndexed};

use crate::fields::{field_at, field_type, tables, with_form};
use spv_logic::TypeId;
use spv_logic::list::List;
use spv_logic::names::Symbol;
use spv_program::ordered_map::Named;
use spv_program::{TypeField, TypeForm};
use std::alloc::{AllocError, Global};
use std::marker::Model;

/// The forms of the types so far. Where each is built of types that are there and no two pointer types have one target, the
/// pointer type to a target is found at once.
#[derive(Drop)]
pub struct IndexedForms {
    forms: List<TypeForm>,
    pointers: Option<Vec<Option<usize>>>,
    fields: Option<Vec<Named<TypeId>>>,
}

impl Model for IndexedForms {
    ghost use Rattle.std.specs.Prelude.{List, IfSome};
    ghost use Rattle.spv_program.specs.declared.types.TypeForm.{TypeForm};
    ghost use Rattle.spv_environments.specs.Fields.{AreFields};
    ghost use Rattle.spv_environments.specs.Indexed.{IsIndexed};

    ghost Value = { List TypeForm };

    ghost view = { λ f. f.forms };

    ghost invariant = { λ f. IfSome f.pointers (λ v. IsIndexed f.forms v.items) × IfSome f.fields (λ v. AreFields f.forms v.items) };
}

fn fields_below(fields: &[TypeField], count: usize) -> bool
    ensures { result ≡ list_all (λ f. nat_lt f.of.0 count) fields.now }
{
    for field in fields {
        let of = field.of.0 as usize;
        if of >= count {
            return false;
        }
    }
    true
}

fn built_below(form: &TypeForm, count: usize) -> bool
    ensures { result ≡ built_below count form.now }
{
    match form {
        TypeForm::Pointer(t) => (t.0 as usize) < count,
        TypeForm::Array(index, element) => {
            (index.0 as usize) < count && (element.0 as usize) < count
        }
        TypeForm::Record(fields) => fields_below(fields.as_slice(), count),
        _ => true,
    }
}

fn note_pointer(pointers: &mut Vec<Option<usize>>, target: usize, place: usize) -> bool
    requires { target < length pointers.old.items }
    ensures noted { IsTrue result → pointers.new.items ≡ slice_set pointers.old.items target (Some place) }
    ensures alone { IsTrue result → not (is_some (slice_index_or pointers.old.items target None)) ≡ true }
{
    if pointers[target].is_some() {
        return false;
    }
    pointers[target] = Some(place);
    true
}

// Notes a form where it is told apart from those before it.
fn note(pointers: &mut Vec<Option<usize>>, place: usize, form: &TypeForm, count: usize) -> bool
    requires { count ≡ length pointers.old.items }
    ensures noted { IsTrue result → pointers.new.items ≡ noted pointers.old.items place form.now }
    ensures alone { IsTrue result → is_alone pointers.old.items form.now ≡ true }
    ensures below { IsTrue result → built_below count form.now ≡ true }
{
    if !built_below(form, count) {
        return false;
    }
    match form {
        TypeForm::Pointer(t) => note_pointer(pointers, t.0 as usize, place),
        _ => true,
    }
}

fn none_noted(alloc: Global, count: usize) -> Result<Vec<Option<usize>>, AllocError>
    ensures { IfOk result (λ v. v.items ≡ replicate count None) }
{
    vec![in alloc; None; count]
}

fn index(alloc: Global, forms: &[TypeForm]) -> Result<Option<Vec<Option<usize>>>, AllocError>
    ensures { IfOk result (λ o. IfSome o (λ v. IsIndexed forms.now v.items)) }
{
    let count = forms.len();
    let mut pointers = none_noted(alloc, count)?;
    for place in 0..count {
        if !note(&mut pointers, place, &forms[place], count) {
            return Ok(None);
        }
    }
    Ok(Some(pointers))
}

// The index with one type more.
fn with_one(
    mut pointers: Vec<Option<usize>>,
    forms: &[TypeForm],
    form: &TypeForm,
) -> Result<Option<Vec<Option<usize>>>, AllocError>
    requires { IsIndexed forms.now pointers.items }
    ensures { IfOk result (λ o. IfSome o (λ v. IsIndexed (forms.now ++ form.now ∷ []) v.items)) }
{
    let place = forms.len();
    pointers.push(None)?;
    if !note(&mut pointers, place, form, place + 1) {
        return Ok(None);
    }
    Ok(Some(pointers))
}

impl IndexedForms {
    /// No types.
    pub fn new(alloc: Global) -> IndexedForms
        ensures { result ≡ [] }
    {
        IndexedForms {
            forms: List::new(alloc),
            pointers: Some(Vec::new(alloc)),
            fields: Some(Vec::new(alloc)),
        }
    }

    /// Types with these forms.
    pub fn of(alloc: Global, forms: List<TypeForm>) -> Result<IndexedForms, AllocError>
        ensures { IfOk result (λ f. f ≡ forms) }
    {
        let pointers = index(alloc, forms.as_slice())?;
        let fields = tables(alloc, forms.as_slice())?;
        Ok(IndexedForms {
            forms,
            pointers,
            fields: Some(fields),
        })
    }

    /// The forms as a list.
    pub fn into_list(self) -> List<TypeForm>
        ensures { result ≡ self }
    {
        self.forms
    }

    /// The forms as a slice.
    pub fn as_slice(&self) -> &[TypeForm]
        ensures { result.now ≡ self.now }
    {
        self.forms.as_slice()
    }

    /// How many types there are.
    pub fn len(&self) -> usize
        ensures { result ≡ length self.now }
    {
        self.forms.len()
    }

    /// The form of the type at a place.
    pub fn get(&self, place: usize) -> &TypeForm
        requires { place < length self.now }
        ensures { slice_get self.now place ≡ Some result.now }
    {
        self.forms.get(place)
    }

    /// For each type the pointer type to it, where all are told apart.
    pub fn pointers(&self) -> Option<&[Option<usize>]>
        ensures { IfSome result (λ s. IsIndexed self.now s.now) }
    {
        match &self.pointers {
            Some(pointers) => Some(pointers.as_slice()),
            None => None,
        }
    }

    /// The type of a field of the type at a place, none where it is no record or has no such field.
    pub fn field(&self, place: usize, x: Symbol) -> Option<TypeId>
        requires { place < length self.now }
        ensures { result ≡ types.field_of (types.form_at self.now place) x }
    {
        match &self.fields {
            Some(tables) => field_at(tables.as_slice(), self.forms.as_slice(), place, x),
            None => self.field_anew(place, x),
        }
    }

    #[tactic(auto, using(crate::proofs::Forms::form_there))]
    fn field_anew(&self, place: usize, x: Symbol) -> Option<TypeId>
        requires { place < length self.now }
        ensures { result ≡ types.field_of (types.form_at self.now place) x }
    {
        match self.forms.get(place) {
            TypeForm::Record(fields) => field_type(fields.as_slice(), x),
            _ => None,
        }
    }

    /// Adds a type. After want of memory nothing is known of the types.
    pub fn push(&mut self, alloc: Global, form: TypeForm) -> Result<(), AllocError>
        ensures { OnOk result (self.new ≡ self.old ++ form ∷ []) }
    {
        let pointers = match self.pointers.take() {
            Some(pointers) => with_one(pointers, self.forms.as_slice(), &form)?,
            None => None,
        };
        let fields = match self.fields.take() {
            Some(tables) => Some(with_form(alloc, tables, self.forms.as_slice(), &form)?),
            None => None,
        };
        self.forms.push(form)?;
        self.pointers = pointers;
        self.fields = fields;
        Ok(())
    }
}
