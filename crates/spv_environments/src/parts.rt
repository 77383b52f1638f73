// The parts of types, and of sorts.

ghost use Rattle.std.specs.Prelude.{◌≡◌, is_some};
ghost use Rattle.spv_logic.specs.Shapes as shapes;
ghost use Rattle.spv_program.specs.Types as types;

use crate::known::Known;
use spv_logic::names::Symbol;
use spv_logic::{Sort, TypeId};

impl Known {
    /// The type of a record's field, none of another type.
    #[tactic(auto, using(crate::proofs::Forms::form_past))]
    pub fn field_type(&self, t: TypeId, x: Symbol) -> Option<TypeId>
        ensures { result ≡ types.field_of (types.form_at self.now.program.forms t.0) x }
    {
        let place = t.0 as usize;
        if place < self.forms.len() {
            self.forms.field(place, x)
        } else {
            None
        }
    }

    /// The sort of an array's elements, none of another sort.
    #[tactic(auto, using(crate::proofs::Pieces::element_there, crate::proofs::Pieces::element_missing))]
    pub fn element_sort(&self, of: Sort) -> Option<Sort>
        ensures { result ≡ shapes.element_sort (types.shapes_of self.now.program.forms) of }
    {
        match of {
            Sort::Whole(t) => match self.element_type(t) {
                Some(element) => Some(self.sort_of(element)),
                None => None,
            },
            _ => None,
        }
    }

    /// Whether a sort has fields.
    #[tactic(auto, using(crate::proofs::Pieces::others_have_fields))]
    pub fn has_fields(&self, of: Sort) -> bool
        ensures { result ≡ is_some (shapes.fields_of (types.shapes_of self.now.program.forms) of) }
    {
        match of {
            Sort::Whole(t) => match self.element_type(t) {
                Some(_) => false,
                None => true,
            },
            _ => false,
        }
    }

    /// The sort of the field of this name, none of a sort without such a field.
    #[tactic(auto, using(crate::proofs::Pieces::field_there, crate::proofs::Pieces::field_missing))]
    pub fn field_sort(&self, of: Sort, x: Symbol) -> Option<Sort>
        ensures { result ≡ shapes.field_sort_of (shapes.fields_of (types.shapes_of self.now.program.forms) of) x.0 }
    {
        match of {
            Sort::Whole(t) => match self.field_type(t, x) {
                Some(u) => Some(self.sort_of(u)),
                None => None,
            },
            _ => None,
        }
    }
}
