// Types outside the TYPE part.

ghost use Rattle.std.specs.Prelude.{◌≡◌, ◌++◌, Ok, IfOk, IfErr, IfSome, OnOk};
ghost use Rattle.spv_typing.specs.DeclarationWalk as spec;
ghost use Rattle.spv_environments.specs.Answers.{Stops};
ghost use Rattle.spv_environments.specs.Scopes.{scope_of};
ghost use Rattle.spv_declaration_typing.specs.canonical_types.Types.{settled, IsFurther};

use crate::canonical_types::behind::{all_low, firsts_behind};
use crate::pointer_types::{Merged, Written, copied, merge, merge_behind, targets, whole};
use crate::type_typing::{Targets, denoted};
use spv_environments::{Known, Scope};
use spv_logic::TypeId;
use spv_program::TypeForm;
use spv_tree::syntax::TypeDenoter;
use spv_typing::TypeFault;
use std::alloc::{AllocError, Global};

/// A type that was read, with the types that it is built of and that the program may not have yet.
#[derive(Drop)]
pub struct NewType {
    /// Those types, behind those of the program.
    pub new: Vec<Written>,
    /// The number of the type among all of them.
    pub of: TypeId,
}

/// The type that is written. The program stays as it is until it is settled.
pub fn read_type(
    scope: &Scope<'_, '_>,
    alloc: Global,
    tree: &TypeDenoter,
) -> Result<NewType, TypeFault>
    ensures ok { IfOk result (λ n. spec.type_walk (scope_of scope.now) tree.now ≡ Ok (settled scope.now.known.now n)) }
    ensures err { IfErr result (λ e. Stops e (spec.type_walk (scope_of scope.now) tree.now)) }
{
    let mut new = Vec::new(alloc);
    let of = denoted(scope, Targets::Declared, alloc, &mut new, tree)?;
    Ok(NewType { new, of })
}

// The forms of the types behind those of the program, where these keep theirs; none where that is not known.
fn further(known: &Known, alloc: Global, new: &[Written]) -> Result<Option<Merged>, AllocError>
    ensures { IfOk result (λ o. IfSome o (λ m. IsFurther known.now new.now m)) }
{
    let Some(pointers) = known.pointers() else {
        return Ok(None);
    };
    let led = targets(alloc, known.types(), new)?;
    if !all_low(led.as_slice(), pointers.len()) {
        return Ok(None);
    }
    let firsts = firsts_behind(alloc, pointers, led.as_slice())?;
    let made = merge_behind(alloc, known.types(), pointers.len(), firsts, new)?;
    Ok(Some(made))
}

fn add_forms(known: &mut Known, alloc: Global, forms: &[TypeForm]) -> Result<(), AllocError>
    ensures { OnOk result (known.new ≡ spec.with_program known.old (spec.with_types known.old.program (known.old.program.forms ++ forms.now) known.old.program.types)) }
{
    for form in forms {
        let copy = copied(alloc, form)?;
        known.add_form(alloc, copy)?;
    }
    Ok(())
}

// All types of the program are put together anew.
fn settle_anew(known: &mut Known, alloc: Global, read: NewType) -> Result<TypeId, AllocError>
    ensures known { OnOk result (known.new ≡ spec.with_program known.old (spec.with_types known.old.program (settled known.old read).forms known.old.program.types)) }
    ensures of { IfOk result (λ t. t ≡ (settled known.old read).type) }
{
    let NewType { new, of } = read;
    let all = whole(alloc, known.forms(), new)?;
    let Merged { forms, numbers } = merge(alloc, known.types(), all.as_slice())?;
    known.set_forms(alloc, forms)?;
    Ok(numbers.number(of))
}

/// Puts a type that was read among those of the program, and gives its number. A pointer type that is there already is that one.
pub fn settle(known: &mut Known, alloc: Global, read: NewType) -> Result<TypeId, AllocError>
    ensures known { OnOk result (known.new ≡ spec.with_program known.old (spec.with_types known.old.program (settled known.old read).forms known.old.program.types)) }
    ensures of { IfOk result (λ t. t ≡ (settled known.old read).type) }
{
    let Some(Merged { forms, numbers }) = further(known, alloc, read.new.as_slice())? else {
        return settle_anew(known, alloc, read);
    };
    add_forms(known, alloc, forms.as_slice())?;
    Ok(numbers.number(read.of))
}
