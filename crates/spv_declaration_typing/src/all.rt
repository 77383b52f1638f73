// Declarations, kind by kind.

ghost use Rattle.std.specs.Prelude.{◌≡◌, Ok, IfErr, OnOk};
ghost use Rattle.spv_typing.specs.DeclarationWalk as spec;
ghost use Rattle.spv_environments.specs.Answers.{Stops};

use crate::constants::const_part;
use crate::symbols::symbol_part;
use crate::types::type_part;
use crate::variables::var_part;
use spv_environments::Known;
use spv_tree::syntax::Declarations;
use spv_typing::TypeFault;
use std::alloc::Global;

/// What declarations add to what is known. After a fault nothing is known of it.
pub fn declarations(known: &mut Known, alloc: Global, tree: &Declarations) -> Result<(), TypeFault>
    ensures ok { OnOk result (spec.declarations_walk known.old tree.now ≡ Ok known.new) }
    ensures err { IfErr result (λ e. Stops e (spec.declarations_walk known.old tree.now)) }
{
    const_part(known, alloc, tree.constants.as_slice())?;
    type_part(known, alloc, tree.types.as_slice())?;
    var_part(known, alloc, tree.variables.as_slice())?;
    symbol_part(known, alloc, tree.symbols.as_slice())
}
