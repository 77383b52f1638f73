// Types as they are written.

use crate::syntax::lists::Several;
use crate::syntax::names::{Constant, Name};
use std::marker::Model;

/// `name | constant ".." constant | "^" name | ARRAY "[" type {"," type} "]" OF type | RECORD field {";" field} END`
#[cycle(types)]
#[derive(Drop)]
pub struct TypeDenoter {
    /// The line of its first token.
    pub line: u32,
    /// What is written.
    pub form: TypeForm,
}

/// What a type is written as.
#[cycle(types)]
#[derive(Drop)]
pub enum TypeForm {
    /// `name`
    Named(Name),
    /// `constant ".." constant`
    Range(Constant, Constant),
    /// `"^" name`
    Pointer(Name),
    /// `ARRAY "[" type {"," type} "]" OF type`: the first index type, the others, and the type of the elements.
    Array(Box<TypeDenoter>, Vec<TypeDenoter>, Box<TypeDenoter>),
    /// `RECORD field {";" field} END`
    Record(Box<Field>, Vec<Field>),
}

impl Model for TypeDenoter {
    ghost use Rattle.spv_tree.specs.syntax.Types as plain;

    ghost Value = { plain.TypeDenoter };

    ghost use Rattle.spv_logic.specs.list.Ways.{coded_by};
    ghost use Rattle.spv_tree.specs.syntax.Model.TypeCodes.{way_type};

    ghost coded = { coded_by way_type };

    ghost use Rattle.spv_tree.specs.syntax.TypeViews.{type_of};

    ghost view = { λ a. type_of a.line a.form };

    ghost use Rattle.spv_tree.specs.syntax.Model.TypeSizes.{type_size};

    ghost size = { type_size };

    ghost use Rattle.spv_tree.specs.syntax.Model.TypeFalls.{type_falls};

    ghost size_decreases = { λ a h. type_falls a };
}

/// `[names ":" type]`
#[cycle(types)]
#[derive(Drop)]
pub struct Field {
    /// The line of its first token, or of the token that follows.
    pub line: u32,
    /// The names and their type, where they are there.
    pub form: Option<(Several<Name>, TypeDenoter)>,
}

impl Model for Field {
    ghost use Rattle.spv_tree.specs.syntax.Types as plain;

    ghost Value = { plain.Field };

    ghost use Rattle.spv_logic.specs.list.Ways.{coded_by};
    ghost use Rattle.spv_tree.specs.syntax.Model.TypeCodes.{way_field};

    ghost coded = { coded_by way_field };

    ghost use Rattle.spv_tree.specs.syntax.TypeViews.{field_of};

    ghost view = { λ a. field_of a.line a.form };

    ghost use Rattle.spv_tree.specs.syntax.Model.TypeSizes.{field_size};

    ghost size = { field_size };

    ghost use Rattle.spv_tree.specs.syntax.Model.TypeFalls.{field_falls};

    ghost size_decreases = { λ a h. field_falls a };
}
