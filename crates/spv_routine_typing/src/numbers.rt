// The numbers of the routines with bodies.

ghost use Rattle.std.specs.Prelude.{◌≡◌, [], ◌∷◌, ◌++◌, IfErr, IfOk};
ghost use Rattle.spv_typing.specs.declared.faults.TypeFault.TheVariants.{Memory};
ghost use Rattle.spv_tree.specs.declared.syntax.routines.RoutineMark.{RoutineMark as Mark};
ghost use Rattle.spv_typing.specs.RoutineWalk as routine;
ghost use Rattle.spv_typing.specs.ProgramWalk as spec;
ghost use Rattle.spv_routine_typing.specs.Numbers.{with_number};

use spv_logic::RoutineId;
use spv_logic::list::List;
use spv_logic::names::Symbol;
use spv_program::ordered_map::Named;
use spv_tree::syntax::{HeadingForm, Name, RoutineMark};
use spv_typing::TypeFault;
use std::alloc::{AllocError, Global};
use std::marker::Model;

/// The names of the routines with bodies, in the order of these. A look-up goes by a hash.
#[derive(Drop)]
pub struct Bodies {
    names: List<Symbol>,
    numbers: Named<u32>,
}

impl Model for Bodies {
    ghost use Rattle.std.specs.Prelude.{List};
    ghost use Rattle.spv_logic.specs.declared.names.names.Symbol.{Symbol as Plain};
    ghost use Rattle.spv_routine_typing.specs.Numbers.{IsNumbered};

    ghost Value = { List Plain };

    ghost view = { λ b. b.names };

    ghost invariant = { λ b. IsNumbered b.names b.numbers };
}

/// The name in a heading.
pub(crate) fn heading_name(form: &HeadingForm) -> Name
    ensures { result ≡ routine.heading_name form.now }
{
    match form {
        HeadingForm::Procedure(name, _) => *name,
        HeadingForm::Function(name, _, _) => *name,
    }
}

// A number under a name, unless one stands there.
fn with_number(mut numbers: Named<u32>, name: Symbol, number: u32) -> Result<Named<u32>, AllocError>
    ensures { IfOk result (λ n. n ≡ with_number numbers name number) }
{
    if numbers.has(name) {
        return Ok(numbers);
    }
    numbers.insert(name, number)?;
    Ok(numbers)
}

impl Bodies {
    // No names.
    #[tactic(auto, using(crate::proofs::Numbering::none_numbered))]
    fn new(alloc: Global) -> Bodies
        ensures { result ≡ [] }
    {
        Bodies {
            names: List::new(alloc),
            numbers: Named::new(alloc),
        }
    }

    // One name more.
    fn with(self, name: Symbol) -> Result<Bodies, TypeFault>
        ensures ok { IfOk result (λ b. b ≡ self ++ name ∷ []) }
        ensures err { IfErr result (λ e. e ≡ Memory) }
    {
        let Bodies { mut names, numbers } = self;
        let number = names.len() as u32;
        if number == u32::MAX {
            return Err(TypeFault::Memory);
        }
        let numbers = with_number(numbers, name, number)?;
        names.push(name)?;
        Ok(Bodies { names, numbers })
    }

    // The name of one routine more, where its body begins here.
    #[tactic(auto, using(crate::proofs::Numbering::begins_next, crate::proofs::Numbering::announced_next, crate::proofs::Numbering::ends_next))]
    fn with_mark(self, mark: &RoutineMark) -> Result<Bodies, TypeFault>
        ensures ok { IfOk result (λ b. (marks : List Mark) → b ++ spec.names_of_bodies marks ≡ self ++ spec.names_of_bodies (mark.now ∷ marks)) }
        ensures err { IfErr result (λ e. e ≡ Memory) }
    {
        match mark {
            RoutineMark::Begins(heading, _, _) => self.with(heading_name(&heading.form).symbol),
            RoutineMark::Announced(_, _) => Ok(self),
            RoutineMark::Ends(_) => Ok(self),
        }
    }

    /// Those of a row of routines.
    pub fn of(alloc: Global, marks: &[RoutineMark]) -> Result<Bodies, TypeFault>
        ensures ok { IfOk result (λ b. b ≡ spec.names_of_bodies marks.now) }
        ensures err { IfErr result (λ e. e ≡ Memory) }
    {
        let mut bodies = Bodies::new(alloc);
        for mark in marks {
            bodies = bodies.with_mark(mark)?;
        }
        Ok(bodies)
    }

    /// The number of a routine among them; a name that is not there has the number of names.
    #[tactic(auto, using(crate::proofs::Numbering::number_there, crate::proofs::Numbering::number_missing))]
    pub fn number(&self, x: Symbol) -> RoutineId
        ensures { result ≡ spec.number_of self.now x }
    {
        match self.numbers.get(x) {
            Some(number) => RoutineId(*number),
            None => RoutineId(self.names.len() as u32),
        }
    }
}
