// Rows of numbers.

ghost use Rattle.std.specs.Prelude.{◌≡◌, ◌<◌, length, replicate, slice_set, IfOk};
ghost use Rattle.spv_tableau_rules.specs.tableaux.Numbers.{nothing};
ghost use Rattle.spv_dictionary.specs.Cells.{cell};

use crate::checked_numbers::Number;
use std::alloc::{AllocError, Global};
use std::marker::Model;

/// Numbers, by their slots from 0.
#[derive(Debug, Drop)]
pub struct Row {
    cells: Vec<Number>,
}

impl Model for Row {
    ghost use Rattle.std.specs.Prelude.{List};
    ghost use Rattle.spv_frac.specs.rational.Rational.{Rational};

    ghost Value = { List Rational };

    ghost view = { λ r. r.cells.items };
}

impl Row {
    /// So many zeros.
    pub fn zeros(alloc: Global, width: usize) -> Result<Row, AllocError>
        ensures { IfOk result (λ r. r ≡ replicate width nothing) }
    {
        let cells = vec![in alloc; Number::whole(0); width]?;
        Ok(Row { cells })
    }

    /// How many slots there are.
    pub fn len(&self) -> usize
        ensures { result ≡ length self.now }
    {
        self.cells.len()
    }

    /// The number at a slot.
    pub fn get(&self, slot: usize) -> Number
        requires { slot < length self.now }
        ensures { result ≡ cell self.now slot }
    {
        self.cells[slot]
    }

    /// Puts a number at a slot.
    pub fn set(&mut self, slot: usize, number: Number)
        requires { slot < length self.old }
        ensures { self.new ≡ slice_set self.old slot number }
    {
        self.cells[slot] = number;
    }
}
