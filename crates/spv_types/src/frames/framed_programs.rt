// Programs whose routines and calls fit together.

ghost use Rattle.std.specs.Prelude.{◌≡◌, IsTrue, map};
ghost use Rattle.spv_program.specs.Frames as plain;
ghost use Rattle.spv_program.specs.Typing.{well_typed};

use crate::Typed;
use spv_frame_check::Effects;
use spv_logic::list::List;
use std::marker::Model;

/// A typed program whose routines use what their GLOBAL lists have, whose functions change nothing, and in which no two roots meet
/// at a call, with what each routine reads and writes. That it is so is a fact of this type.
#[derive(Drop)]
pub struct Framed {
    typed: Typed,
    effects: List<Effects>,
}

impl Model for Framed {
    ghost use Rattle.spv_types.specs.frames.Framed.{Framed, IsFramed};

    ghost Value = { Framed };

    ghost use Rattle.std.specs.Coded.{codes};
    ghost use Rattle.spv_logic.specs.list.Ways.{coded_by};
    ghost use Rattle.spv_program.specs.typed.Model.FormulaCodes.{way_formula};
    ghost use Rattle.spv_program.specs.typed.Model.StatementCodes.{way_statement};

    ghost coded = { Prim.hlevel (codes, coded_by way_formula, coded_by way_statement) };

    ghost view = { λ f. record { program = f.typed; effects = f.effects } };

    ghost invariant = { λ f. IsFramed (record { program = f.typed; effects = f.effects }) };
}

impl Framed {
    // A program that the walk met no fault in.
    pub(crate) fn of(typed: Typed, effects: List<Effects>) -> Framed
        requires typed { IsTrue (well_typed typed) }
        requires framed { IsTrue (plain.framed typed) }
        requires effects { effects ≡ map plain.effects_of typed.routines }
        ensures { result ≡ record { program = typed; effects = effects } }
    {
        Framed { typed, effects }
    }

    /// The typed program.
    pub fn typed(&self) -> &Typed
        ensures { result.now ≡ self.now.program }
    {
        &self.typed
    }

    /// What each routine reads and writes, in the order of their bodies.
    pub fn effects(&self) -> &[Effects]
        ensures { result.now ≡ self.now.effects }
    {
        self.effects.as_slice()
    }

    /// The program is well typed, the rules of frames hold in it, and the effects are those of its routines.
    pub fn law_framed(&self)
        ensures typed { IsTrue (well_typed self.now.program) }
        ensures framed { IsTrue (plain.framed self.now.program) }
        ensures effects { self.now.effects ≡ map plain.effects_of self.now.program.routines }
    {
        let _ = &self.effects;
    }
}
