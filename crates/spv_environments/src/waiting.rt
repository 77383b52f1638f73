// Routines that wait for their bodies, and those that have them.

ghost use Rattle.std.specs.Prelude.{◌≡◌, [], ◌∷◌, ◌++◌, true, None, IfErr, IfNone, Ok, OnOk, is_some, option_map};
ghost use Rattle.spv_program.specs.typed.ProgramViews.{routine_of};
ghost use Rattle.spv_typing.specs.DeclarationWalk.{with_program};
ghost use Rattle.spv_typing.specs.ProgramWalk as spec;
ghost use Rattle.spv_environments.specs.Answers.{Stops};
ghost use Rattle.spv_environments.specs.Views.{specified_of, waiting};

use crate::known::Known;
use crate::routines::Specified;
use spv_logic::names::Symbol;
use spv_program::ordered_map::Named;
use spv_program::typed::Routine;
use spv_typing::TypeFault;
use std::alloc::AllocError;

// That nothing in a table waits, or the fault of the first that does.
#[tactic(auto, using(crate::proofs::Bodies::first_waits, crate::proofs::Bodies::first_has_begun, crate::proofs::Bodies::all_have_begun))]
fn nothing_waits(table: &Named<Option<Specified>>) -> Result<(), TypeFault>
    ensures ok { OnOk result (spec.none_awaited (waiting table.now) ≡ Ok true) }
    ensures err { IfErr result (λ e. Stops e (spec.none_awaited (waiting table.now))) }
{
    for place in 0..table.len() {
        if let Some((name, entry)) = table.entry(place) {
            if let Some(specified) = entry {
                return Err(TypeFault::Undeclared(specified.heading.line, name));
            }
        }
    }
    Ok(())
}

impl Known {
    /// Whether a routine of this name waits for its body.
    #[tactic(auto, using(crate::proofs::Bodies::name_waits, crate::proofs::Bodies::name_has_begun, crate::proofs::Bodies::name_missing))]
    pub fn is_awaited(&self, name: Symbol) -> bool
        ensures { result ≡ is_some (spec.awaited_of self.now.awaited name) }
    {
        self.awaited.law_apart();
        match self.awaited.get(name) {
            Some(Some(_)) => true,
            Some(None) => false,
            None => false,
        }
    }

    /// Lets a routine wait for its body, behind those that wait. None of its name does.
    #[tactic(auto, using(crate::proofs::Bodies::waits_last))]
    pub fn await_body(&mut self, name: Symbol, specified: Specified) -> Result<(), AllocError>
        requires new { spec.awaited_of self.old.awaited name ≡ None }
        ensures { OnOk result (self.new ≡ spec.with_awaited self.old (self.old.awaited ++ specified_of name specified ∷ [])) }
    {
        // One of this name that has begun would hold its place.
        drop(self.awaited.remove(name));
        self.awaited.insert(name, Some(specified))?;
        Ok(())
    }

    /// Takes the routine of this name out of those that wait for their bodies.
    #[tactic(auto, using(crate::proofs::Bodies::name_waits, crate::proofs::Bodies::name_has_begun, crate::proofs::Bodies::name_missing, crate::proofs::Bodies::others_wait, crate::proofs::Bodies::none_taken, crate::proofs::Bodies::none_there))]
    pub fn take_awaited(&mut self, name: Symbol) -> Option<Specified>
        ensures taken { option_map (specified_of name) result ≡ spec.awaited_of self.old.awaited name }
        ensures others { self.new ≡ spec.with_awaited self.old (spec.without self.old.awaited name) }
        ensures missing { IfNone result (self.new ≡ self.old) }
    {
        self.awaited.law_apart();
        match self.awaited.replace(name, None) {
            Some(Some(specified)) => Some(specified),
            Some(None) => None,
            None => None,
        }
    }

    /// That no routine waits for its body, or the fault of the first that does.
    pub fn none_awaited(&self) -> Result<(), TypeFault>
        ensures ok { OnOk result (spec.none_awaited self.now.awaited ≡ Ok true) }
        ensures err { IfErr result (λ e. Stops e (spec.none_awaited self.now.awaited)) }
    {
        nothing_waits(&self.awaited)
    }

    /// Adds a routine with its body.
    #[tactic(auto, using(crate::proofs::Bodies::routine_last))]
    pub fn add_routine(&mut self, routine: Routine) -> Result<(), AllocError>
        ensures { OnOk result (self.new ≡ with_program self.old (spec.with_routine self.old.program (routine_of routine))) }
    {
        self.routines.push(routine)?;
        Ok(())
    }
}
