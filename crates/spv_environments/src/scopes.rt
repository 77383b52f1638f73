// What a name stands for where a formula or a statement is read.

ghost use Rattle.std.specs.Prelude.{◌≡◌, ◌++◌, IfSome, option_copied, option_map};
ghost use Rattle.spv_program.specs.Lists.{found};
ghost use Rattle.spv_typing.specs.Known as spec;
ghost use Rattle.spv_environments.specs.Views.{function_of, heading_of};
ghost use Rattle.spv_environments.specs.Scopes.{own_of, meaning_of, result_of, scope_of, routines, callables, places, declared_types, declared_names};

use crate::functions::Function;
use crate::known::{Known, Signature};
use crate::routines::Heading;
use spv_logic::names::Symbol;
use spv_logic::{Sort, TypeId};
use spv_program::ordered_map::Named;

/// What a name of a routine stands for in it.
#[derive(Clone, Copy, Debug)]
pub enum Own {
    /// A constant.
    Constant(i64),
    /// A parameter or a local variable of this type.
    Place(TypeId),
    /// An INITIAL name, of this sort.
    Start(Sort),
}

/// What a name stands for.
#[derive(Clone, Copy)]
pub enum Meaning<'a> {
    /// A type.
    Type(TypeId),
    /// The sort LIST.
    List,
    /// A constant.
    Constant(i64),
    /// A variable or a parameter of this type; in annotations also a function's name, for its result.
    Place(TypeId),
    /// An INITIAL name, of this sort.
    Start(Sort),
    /// A declared symbol, with its sorts.
    Declared(Symbol, &'a Signature),
    /// A routine.
    Routine(Symbol, &'a Heading),
}

/// Where a formula or a statement stands: the names of the routine's scope, which hide those of the program, and the routine.
/// Of two names that are the same the first counts, in the order of the fields.
#[derive(Clone, Copy)]
pub struct Scope<'k, 'o> {
    /// The program so far.
    pub known: &'k Known,
    /// In EXIT the parameters, else no names.
    pub parameters: &'o Named<Own>,
    /// In annotations, a function's name and the type of its result.
    pub result: Option<(Symbol, TypeId)>,
    /// The names of the routine, in EXIT without its parameters.
    pub own: &'o Named<Own>,
    /// The routine in whose body this is.
    pub routine: Option<(Symbol, &'k Heading)>,
}

fn meaning_of_own<'a>(own: Own) -> Meaning<'a>
    ensures { meaning_of result ≡ own_of own }
{
    match own {
        Own::Constant(z) => Meaning::Constant(z),
        Own::Place(t) => Meaning::Place(t),
        Own::Start(s) => Meaning::Start(s),
    }
}

#[tactic(auto, using(crate::proofs::Meanings::own_found, crate::proofs::Meanings::own_missing))]
fn table_meaning<'a>(names: &Named<Own>, x: Symbol) -> Option<Meaning<'a>>
    ensures { option_map meaning_of result ≡ found (spec.named own_of names.now) x }
{
    match names.get(x) {
        Some(own) => Some(meaning_of_own(*own)),
        None => None,
    }
}

impl Known {
    fn fixed_meaning(&self, x: Symbol) -> Option<Meaning<'_>>
        ensures { option_map meaning_of result ≡ found (spec.names_from_start self.now.start) x }
    {
        if self.start.integer.0 == x.0 {
            return Some(Meaning::Type(TypeId(0)));
        }
        if self.start.boolean.0 == x.0 {
            return Some(Meaning::Type(TypeId(1)));
        }
        if self.start.list.0 == x.0 {
            return Some(Meaning::List);
        }
        None
    }

    #[tactic(auto, using(crate::proofs::Meanings::routine_found, crate::proofs::Meanings::routine_missing))]
    fn routine_meaning(&self, x: Symbol) -> Option<Meaning<'_>>
        ensures { option_map meaning_of result ≡ found (routines self.now) x }
    {
        match self.headings.named().get(x) {
            Some(heading) => Some(Meaning::Routine(x, heading)),
            None => None,
        }
    }

    #[tactic(auto, using(crate::proofs::Meanings::symbol_found, crate::proofs::Meanings::symbol_missing))]
    fn callable_meaning(&self, x: Symbol) -> Option<Meaning<'_>>
        ensures { option_map meaning_of result ≡ found (callables self.now) x }
    {
        match self.symbols.get(x) {
            Some(signature) => Some(Meaning::Declared(x, signature)),
            None => self.routine_meaning(x),
        }
    }

    #[tactic(auto, using(crate::proofs::Meanings::place_found, crate::proofs::Meanings::place_missing))]
    fn place_meaning(&self, x: Symbol) -> Option<Meaning<'_>>
        ensures { option_map meaning_of result ≡ found (places self.now) x }
    {
        match self.variables.get(x) {
            Some(t) => Some(Meaning::Place(*t)),
            None => self.callable_meaning(x),
        }
    }

    #[tactic(auto, using(crate::proofs::Meanings::type_found, crate::proofs::Meanings::type_missing))]
    fn type_meaning(&self, x: Symbol) -> Option<Meaning<'_>>
        ensures { option_map meaning_of result ≡ found (declared_types self.now) x }
    {
        match self.types.get(x) {
            Some(t) => Some(Meaning::Type(*t)),
            None => self.place_meaning(x),
        }
    }

    #[tactic(auto, using(crate::proofs::Meanings::constant_found, crate::proofs::Meanings::constant_missing))]
    fn declared_meaning(&self, x: Symbol) -> Option<Meaning<'_>>
        ensures { option_map meaning_of result ≡ found (declared_names self.now) x }
    {
        match self.constants.get(x) {
            Some(z) => Some(Meaning::Constant(*z)),
            None => self.type_meaning(x),
        }
    }

    /// What a name stands for in the program.
    pub fn meaning(&self, x: Symbol) -> Option<Meaning<'_>>
        ensures { option_map meaning_of result ≡ found (spec.program_names self.now) x }
    {
        match self.fixed_meaning(x) {
            Some(meaning) => Some(meaning),
            None => self.declared_meaning(x),
        }
    }
}

impl<'k, 'o> Scope<'k, 'o> {
    fn later_meaning(&self, x: Symbol) -> Option<Meaning<'k>>
        ensures { option_map meaning_of result ≡ found (result_of self.now.result ++ spec.named own_of self.now.own.now) x }
    {
        match self.result {
            Some((name, t)) => {
                if name.0 == x.0 {
                    Some(Meaning::Place(t))
                } else {
                    table_meaning(self.own, x)
                }
            }
            None => table_meaning(self.own, x),
        }
    }

    /// What a name stands for among those of the routine's scope alone.
    #[tactic(auto, using(crate::proofs::Meanings::parameter_found, crate::proofs::Meanings::parameter_missing))]
    pub fn own_meaning(&self, x: Symbol) -> Option<Meaning<'k>>
        ensures { option_map meaning_of result ≡ found (scope_of self.now).own x }
    {
        match self.parameters.get(x) {
            Some(own) => Some(meaning_of_own(*own)),
            None => self.later_meaning(x),
        }
    }

    /// What a name stands for.
    pub fn meaning(&self, x: Symbol) -> Option<Meaning<'k>>
        ensures { option_map meaning_of result ≡ spec.meaning (scope_of self.now) x }
    {
        match self.own_meaning(x) {
            Some(meaning) => Some(meaning),
            None => self.known.meaning(x),
        }
    }

    /// The function of formulas of a name that nothing else has.
    pub fn function(&self, x: Symbol) -> Option<Function>
        ensures { option_map function_of result ≡ spec.function (scope_of self.now) x }
    {
        let known = self.known;
        known.start.function(x)
    }
}
