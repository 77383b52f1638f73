// What the declared symbols may mean.

/// An interpretation of the declared symbols: each value of a world has one meaning. It has no
/// running member, so no call can use it, and what is claimed for a world is claimed for every one.
pub trait World {
    ghost use Rattle.std.specs.Prelude.{ℕ, List};
    ghost use Rattle.spv_logic.specs.Values.{Value};

    /// The answer of the symbol of this number to these values. If it is of a wrong sort, the default
    /// of the declared one is taken for it.
    ghost apply: { Self → ℕ → List Value → Value };
}

/// The world whose symbols always answer the number 0.
#[derive(Clone, Copy, Debug)]
pub struct PlainWorld;

impl World for PlainWorld {
    ghost use Rattle.std.specs.Prelude.{pos};
    ghost use Rattle.spv_logic.specs.Values.{Number};

    ghost apply = { λ _ _ _. Number (pos 0) };
}
