// Names that are declared together.

ghost use Rattle.std.specs.Prelude.{◌≡◌, [], ◌∷◌, Bool, IfOk, IfErr, OnOk, Ok, map};
ghost use Rattle.spv_logic.specs.declared.names.names.Symbol.{Symbol as SymbolText};
ghost use Rattle.spv_typing.specs.Outcomes.{each};
ghost use Rattle.spv_typing.specs.TypeWalk.{all_names};
ghost use Rattle.spv_typing.specs.DeclarationWalk.{new_name};
ghost use Rattle.spv_environments.specs.Answers.{Stops};
ghost use Rattle.spv_declaration_typing.specs.type_typing.Names.{only_names};

use spv_logic::names::Symbol;
use spv_program::ordered_map::Named;
use spv_tree::syntax::{Name, Several};
use spv_typing::TypeFault;
use std::alloc::Global;

/// Which names are free.
pub trait Free {
    ghost free: { Self → SymbolText → Bool };

    /// Whether a name is.
    fn is_free(&self, x: Symbol) -> bool
        ensures { result ≡ free self.now x };
}

#[tactic(auto, using(crate::proofs::type_typing::NewNames::among))]
fn new_name<F: Free>(free: &F, names: &mut Named<u32>, x: Name) -> Result<(), TypeFault>
    ensures ok { OnOk result (new_name (F.free free.now) (only_names names.old) x ≡ Ok (only_names names.new)) }
    ensures err { IfErr result (λ e. Stops e (new_name (F.free free.now) (only_names names.old) x)) }
{
    if !free.is_free(x.symbol) {
        return Err(TypeFault::DeclaredTwice(x.line, x.symbol));
    }
    if names.has(x.symbol) {
        return Err(TypeFault::DeclaredTwice(x.line, x.symbol));
    }
    names.insert(x.symbol, x.line)?;
    Ok(())
}

/// The names, in order, with their lines; each is free and none stands twice.
pub fn new_names<F: Free>(
    free: &F,
    alloc: Global,
    names: &Several<Name>,
) -> Result<Named<u32>, TypeFault>
    ensures ok { IfOk result (λ n. each (new_name (F.free free.now)) [] (all_names names.now) ≡ Ok (only_names n)) }
    ensures err { IfErr result (λ e. Stops e (each (new_name (F.free free.now)) [] (all_names names.now))) }
{
    let mut found = Named::new(alloc);
    new_name(free, &mut found, names.first)?;
    for x in names.more.as_slice() {
        new_name(free, &mut found, *x)?;
    }
    Ok(found)
}
