// What is known of the program so far.

ghost use Rattle.std.specs.Prelude.{◌≡◌, [], IfOk, IfSome, IfNone};
ghost use Rattle.spv_program.specs.Types as types;
ghost use Rattle.spv_program.specs.declared.types.TypeForm.TheVariants.{Record};
ghost use Rattle.spv_typing.specs.Known.{known_in, is_fixed};
ghost use Rattle.spv_typing.specs.ProgramWalk.{known_at_first};

use crate::functions::KnownNames;
use crate::headings::IndexedHeadings;
use crate::indexed::IndexedForms;
use crate::routines::{Heading, Specified};
use spv_logic::list::List;
use spv_logic::names::{Names, Symbol};
use spv_logic::{Sort, TypeId};
use spv_program::TypeForm;
use spv_program::ordered_map::Named;
use spv_program::typed::Routine;
use std::alloc::{AllocError, Global};
use std::marker::Model;

/// The sorts of a declared symbol's arguments and of its result.
#[derive(Drop)]
pub struct Signature {
    /// Those of the arguments, in order.
    pub args: List<Sort>,
    /// That of the result.
    pub result: Sort,
}

/// The program so far, the headings so far, and which of them wait for their bodies.
#[derive(Drop)]
pub struct Known {
    pub(crate) start: KnownNames,
    pub(crate) forms: IndexedForms,
    pub(crate) types: Named<TypeId>,
    pub(crate) constants: Named<i64>,
    pub(crate) variables: Named<TypeId>,
    pub(crate) symbols: Named<Signature>,
    pub(crate) headings: IndexedHeadings,
    pub(crate) awaited: Named<Option<Specified>>,
    pub(crate) routines: List<Routine>,
}

impl Model for Known {
    ghost use Rattle.std.specs.Prelude.{map, []};
    ghost use Rattle.spv_typing.specs.Known as spec;
    ghost use Rattle.spv_typing.specs.ProgramWalk.{no_main};
    ghost use Rattle.spv_program.specs.typed.ProgramViews.{routine_of};
    ghost use Rattle.spv_environments.specs.Views.{known_names_of, headings_of, waiting};
    ghost use Rattle.spv_environments.specs.Symbols.{symbols_of};
    ghost use Rattle.std.specs.Coded.{codes};
    ghost use Rattle.spv_logic.specs.list.Ways.{coded_by};
    ghost use Rattle.spv_program.specs.typed.Model.FormulaCodes.{way_formula};
    ghost use Rattle.spv_program.specs.typed.Model.StatementCodes.{way_statement};

    ghost Value = { spec.Known };

    ghost coded = { Prim.hlevel (codes, coded_by way_formula, coded_by way_statement) };

    ghost view = { λ k. record {
      start = known_names_of k.start;
      program = record {
        forms = k.forms;
        titles = [];
        types = k.types;
        constants = k.constants;
        variables = k.variables;
        symbols = symbols_of k.symbols;
        routines = map routine_of k.routines;
        main = no_main;
      };
      headings = headings_of k.headings;
      awaited = waiting k.awaited;
    } };
}

impl Known {
    /// What is known before the first declaration, with the names of a table.
    pub fn new(alloc: Global, names: &Names) -> Result<Known, AllocError>
        ensures { IfOk result (λ k. k ≡ known_at_first (known_in names.now)) }
    {
        let mut forms = IndexedForms::new(alloc);
        forms.push(alloc, TypeForm::Integer)?;
        forms.push(alloc, TypeForm::Boolean)?;
        Ok(Known {
            start: KnownNames::of(names),
            forms,
            types: Named::new(alloc),
            constants: Named::new(alloc),
            variables: Named::new(alloc),
            symbols: Named::new(alloc),
            headings: IndexedHeadings::new(alloc),
            awaited: Named::new(alloc),
            routines: List::new(alloc),
        })
    }

    /// Whether a name is that of a type or sort that is known from the start.
    pub fn is_fixed(&self, x: Symbol) -> bool
        ensures { result ≡ is_fixed self.now.start x }
    {
        self.start.is_fixed(x)
    }

    /// The form of a type, none of a number that is not there.
    #[tactic(auto, using(crate::proofs::Forms::form_there, crate::proofs::Forms::form_past))]
    pub fn form(&self, t: TypeId) -> Option<&TypeForm>
        ensures there { IfSome result (λ f. types.form_at self.now.program.forms t.0 ≡ f.now) }
        ensures missing { IfNone result (types.form_at self.now.program.forms t.0 ≡ Record []) }
    {
        let place = t.0 as usize;
        if place < self.forms.len() {
            Some(self.forms.get(place))
        } else {
            None
        }
    }

    /// The sort of a type's values.
    pub fn sort_of(&self, t: TypeId) -> Sort
        ensures { result ≡ types.sort_of self.now.program.forms t }
    {
        match self.form(t) {
            Some(TypeForm::Integer) => Sort::Int,
            Some(TypeForm::Boolean) => Sort::Bool,
            Some(TypeForm::Range(_, _)) => Sort::Int,
            Some(TypeForm::Pointer(u)) => Sort::Ptr(*u),
            Some(TypeForm::Array(_, _)) => Sort::Whole(t),
            Some(TypeForm::Record(_)) => Sort::Whole(t),
            None => Sort::Whole(t),
        }
    }

    /// The type of an array's elements, none of another type.
    pub fn element_type(&self, t: TypeId) -> Option<TypeId>
        ensures { result ≡ types.element_of (types.form_at self.now.program.forms t.0) }
    {
        match self.form(t) {
            Some(TypeForm::Array(_, element)) => Some(*element),
            _ => None,
        }
    }

    /// The type of the cells that a pointer type leads to, none of another type.
    pub fn target(&self, t: TypeId) -> Option<TypeId>
        ensures { result ≡ types.target_of (types.form_at self.now.program.forms t.0) }
    {
        match self.form(t) {
            Some(TypeForm::Pointer(target)) => Some(*target),
            _ => None,
        }
    }
}
