// Fields of records.

ghost use Rattle.std.specs.Prelude.{◌≡◌, [], ◌∷◌, ◌++◌, map, Ok, IfOk, IfErr, OnOk};
ghost use Rattle.spv_typing.specs.Outcomes.{each};
ghost use Rattle.spv_typing.specs.TypeWalk.{all_names, new_field};
ghost use Rattle.spv_environments.specs.Answers.{Stops};
ghost use Rattle.spv_declaration_typing.specs.type_typing.Names.{only_names};
ghost use Rattle.spv_declaration_typing.specs.type_typing.Reading.{fields_of};
ghost use Rattle.spv_declaration_typing.specs.type_typing.Fields.{NoneThere};

use crate::type_typing::names::{Free, new_names};
use spv_logic::TypeId;
use spv_logic::list::List;
use spv_logic::names::Symbol;
use spv_program::TypeField;
use spv_program::ordered_map::Named;
use spv_tree::syntax::{Name, Several};
use spv_typing::TypeFault;
use std::alloc::{AllocError, Global};

/// The names of a record's fields so far; the others are free.
#[derive(Clone, Copy)]
pub struct FieldNames<'a> {
    pub(crate) types: &'a Named<TypeId>,
}

impl<'a> Free for FieldNames<'a> {
    ghost use Rattle.spv_declaration_typing.specs.type_typing.Fields.{is_no_field};

    ghost free = { λ fs x. is_no_field fs.types.now x };

    #[tactic(auto, using(crate::proofs::type_typing::NewFields::field_names))]
    fn is_free(&self, x: Symbol) -> bool {
        let types = self.types;
        !types.has(x)
    }
}

/// The names of further fields, each new.
pub(crate) fn new_fields(
    fields: &Named<TypeId>,
    alloc: Global,
    names: &Several<Name>,
) -> Result<Named<u32>, TypeFault>
    ensures ok { IfOk result (λ n. each (new_field (fields_of fields.now)) [] (all_names names.now) ≡ Ok (only_names n)) }
    ensures missing { IfOk result (λ n. NoneThere fields.now (only_names n)) }
    ensures err { IfErr result (λ e. Stops e (each (new_field (fields_of fields.now)) [] (all_names names.now))) }
{
    let free = FieldNames { types: fields };
    new_names(&free, alloc, names)
}

/// Adds fields of one type.
pub(crate) fn add_fields(
    fields: &mut Named<TypeId>,
    names: &Named<u32>,
    t: TypeId,
) -> Result<(), AllocError>
    requires { NoneThere fields.old (only_names names.now) }
    ensures { OnOk result (fields_of fields.new ≡ fields_of fields.old ++ map (λ x. record { name = x; of = t }) (only_names names.now)) }
{
    for place in 0..names.len() {
        let (x, _) = names.entry(place).unwrap();
        fields.insert(x, t)?;
    }
    Ok(())
}

fn push(items: &mut Vec<TypeField>, item: TypeField) -> Result<(), AllocError>
    ensures { OnOk result (items.new.items ≡ items.old.items ++ item ∷ []) }
{
    items.push(item)?;
    Ok(())
}

/// The fields in order.
pub(crate) fn listed(alloc: Global, fields: &Named<TypeId>) -> Result<List<TypeField>, AllocError>
    ensures { IfOk result (λ l. l ≡ fields_of fields.now) }
{
    let mut made = Vec::new(alloc);
    for place in 0..fields.len() {
        let (name, of) = fields.entry(place).unwrap();
        push(&mut made, TypeField { name, of: *of })?;
    }
    Ok(List::from_vec(made))
}
