// What declarations add to what is known.

ghost use Rattle.std.specs.Prelude.{◌≡◌, ◌<◌, [], ◌∷◌, ◌++◌, true, None, IfSome, OnOk, length};
ghost use Rattle.spv_program.specs.ordered_map.Entries.{with_value};
ghost use Rattle.spv_program.specs.Lists.{found};
ghost use Rattle.spv_typing.specs.Known as spec;
ghost use Rattle.spv_typing.specs.DeclarationWalk.{with_program, with_constant, with_types, with_variables, with_symbol};
ghost use Rattle.spv_environments.specs.Indexed.{IsIndexed};
ghost use Rattle.spv_environments.specs.Symbols.{decl_of};

use crate::indexed::IndexedForms;
use crate::known::{Known, Signature};
use spv_logic::TypeId;
use spv_logic::list::List;
use spv_logic::names::Symbol;
use spv_program::TypeForm;
use spv_program::ordered_map::Named;
use std::alloc::{AllocError, Global};

impl Known {
    /// Whether constants, types and variables of the program may take a name.
    pub fn is_free(&self, x: Symbol) -> bool
        ensures { result ≡ spec.is_free self.now x }
    {
        match self.meaning(x) {
            Some(_) => false,
            None => true,
        }
    }

    /// Whether symbols and routines of the program may take a name: no printed term is written with it either.
    pub fn is_free_for_call(&self, x: Symbol) -> bool
        ensures { result ≡ spec.is_free_for_call self.now x }
    {
        self.is_free(x) && !self.start.is_reserved(x)
    }

    /// Adds a constant.
    pub fn add_constant(&mut self, x: Symbol, z: i64) -> Result<(), AllocError>
        requires { found self.old.program.constants x ≡ None }
        ensures { OnOk result (self.new ≡ with_program self.old (with_constant self.old.program x z)) }
    {
        self.constants.insert(x, z)?;
        Ok(())
    }

    /// Adds the name of a type.
    pub fn add_type(&mut self, x: Symbol, t: TypeId) -> Result<(), AllocError>
        requires { found self.old.program.types x ≡ None }
        ensures { OnOk result (self.new ≡ with_program self.old (with_types self.old.program self.old.program.forms (self.old.program.types ++ (x, t) ∷ []))) }
    {
        self.types.insert(x, t)?;
        Ok(())
    }

    /// Adds a variable.
    pub fn add_variable(&mut self, x: Symbol, t: TypeId) -> Result<(), AllocError>
        requires { found self.old.program.variables x ≡ None }
        ensures { OnOk result (self.new ≡ with_program self.old (with_variables self.old.program self.old.program.forms ((x, t) ∷ []))) }
    {
        self.variables.insert(x, t)?;
        Ok(())
    }

    /// Adds a declared symbol.
    #[tactic(auto, using(crate::proofs::Free::symbol_is_new, crate::proofs::Free::symbol_last))]
    pub fn add_symbol(&mut self, x: Symbol, signature: Signature) -> Result<(), AllocError>
        requires { spec.is_free self.old x ≡ true }
        ensures { OnOk result (self.new ≡ with_program self.old (with_symbol self.old.program (decl_of x signature))) }
    {
        self.symbols.insert(x, signature)?;
        Ok(())
    }

    /// The forms of the types so far.
    pub fn forms(&self) -> &[TypeForm]
        ensures { result.now ≡ self.now.program.forms }
    {
        self.forms.as_slice()
    }

    /// For each type the pointer type to it, where all are told apart.
    pub fn pointers(&self) -> Option<&[Option<usize>]>
        ensures { IfSome result (λ s. IsIndexed self.now.program.forms s.now) }
    {
        self.forms.pointers()
    }

    /// Puts other forms in the place of those so far.
    pub fn set_forms(&mut self, alloc: Global, forms: List<TypeForm>) -> Result<(), AllocError>
        ensures { OnOk result (self.new ≡ with_program self.old (with_types self.old.program forms self.old.program.types)) }
    {
        self.forms = IndexedForms::of(alloc, forms)?;
        Ok(())
    }

    /// Adds a type with this form.
    pub fn add_form(&mut self, alloc: Global, form: TypeForm) -> Result<(), AllocError>
        ensures { OnOk result (self.new ≡ with_program self.old (with_types self.old.program (self.old.program.forms ++ form ∷ []) self.old.program.types)) }
    {
        self.forms.push(alloc, form)?;
        Ok(())
    }

    /// The names of types, with their types.
    pub fn types(&self) -> &Named<TypeId>
        ensures { result.now ≡ self.now.program.types }
    {
        &self.types
    }

    /// Puts another type under the name at a place.
    pub fn set_type(&mut self, place: usize, t: TypeId)
        requires { place < length self.old.program.types }
        ensures { self.new ≡ with_program self.old (with_types self.old.program self.old.program.forms (with_value self.old.program.types place t)) }
    {
        self.types.set(place, t);
    }
}
