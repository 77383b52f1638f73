// A system of rows, and the tableau of them.

ghost use Rattle.std.specs.Prelude.{◌≡◌, Some};
ghost use Rattle.spv_simplex.specs.declared.checked.Checked.TheVariants as checked;

use crate::numbers::fraction;
use crate::{shown, sums};
use spv_atoms::Linear;
use spv_frac::Frac;
use spv_simplex::{Checked, Evidence, Mark, Side, Tableau, can_open};
use spv_term::Terms;
use std::alloc::{AllocError, Global};

/// A system: its rows, the tableau of them once it is open, and the marks that were made.
#[derive(Drop)]
pub struct System {
    rows: Vec<Linear>,
    tableau: Option<Tableau>,
    marks: Vec<Mark>,
}

// Asserts a bound, if it may be asserted.
fn assert_bound(tableau: &mut Tableau, side: Side, row: i64, bound: Frac) -> bool {
    let Ok(row) = u32::try_from(row) else {
        return false;
    };
    match tableau.accepts(row, side, bound) {
        Ok(true) => {
            tableau.assert_bound(row, side, bound);
            true
        }
        _ => false,
    }
}

// Goes back to a mark, if it was not undone past.
fn undo(tableau: &mut Tableau, mark: Mark) -> bool {
    let has = tableau.has(mark);
    if has {
        tableau.undo(mark);
    }
    has
}

// Adds the value of each part at the kept point.
fn add_point(alloc: Global, out: &mut Vec<u8>, tableau: &Tableau) -> Result<(), AllocError>
    requires { tableau.now.answer ≡ Some checked.Feasible }
{
    out.extend_from_slice(b"feasible")?;
    for part in tableau.parts() {
        shown::add_number(alloc, out, i128::from(part.0))?;
        shown::add_fraction(alloc, out, tableau.point(*part))?;
    }
    out.extend_from_slice(b"\n")
}

// Adds the kept contradiction.
fn add_combination(
    alloc: Global,
    out: &mut Vec<u8>,
    combination: &[(u32, Side, Frac)],
) -> Result<(), AllocError> {
    out.extend_from_slice(b"infeasible")?;
    shown::add_rows(alloc, out, combination)?;
    out.extend_from_slice(b"\n")
}

// Adds the kept evidence behind a word.
fn add_limit(
    alloc: Global,
    out: &mut Vec<u8>,
    word: &[u8],
    evidence: &Evidence,
) -> Result<(), AllocError> {
    out.extend_from_slice(word)?;
    shown::add_evidence(alloc, out, evidence)?;
    out.extend_from_slice(b"\n")
}

// Adds the answer of the last check with all that it carries.
fn add_answer(
    alloc: Global,
    out: &mut Vec<u8>,
    tableau: &Tableau,
    answer: Checked,
) -> Result<(), AllocError>
    requires { tableau.now.answer ≡ Some answer }
{
    match answer {
        Checked::Feasible => add_point(alloc, out, tableau),
        Checked::Infeasible => add_combination(alloc, out, tableau.combination()),
        Checked::Wide => add_limit(alloc, out, b"wide", tableau.evidence()),
        Checked::Pivots => add_limit(alloc, out, b"pivots", tableau.evidence()),
    }
}

// Checks, and adds the answer.
fn check(alloc: Global, out: &mut Vec<u8>, tableau: &mut Tableau) -> Result<(), AllocError> {
    let answer = tableau.check();
    add_answer(alloc, out, tableau, answer)
}

// So often: a bound, a check, and back. How many of the checks found a point.
fn again(tableau: &mut Tableau, count: i64, row: i64, bound: Frac) -> u64 {
    let mut feasible = 0_u64;
    for _ in 0..count {
        let mark = tableau.mark();
        assert_bound(tableau, Side::Upper, row, bound);
        if tableau.check() == Checked::Feasible {
            feasible = feasible.saturating_add(1);
        }
        undo(tableau, mark);
    }
    feasible
}

// The number at a place of a line, 0 where there is none.
fn at(numbers: &[i64], place: usize) -> i64 {
    numbers.get(place).copied().unwrap_or(0)
}

// Goes back to the mark of this number.
fn undo_to(tableau: &mut Tableau, marks: &[Mark], place: i64) -> bool {
    match usize::try_from(place) {
        Ok(place) => match marks.get(place) {
            Some(mark) => undo(tableau, *mark),
            None => false,
        },
        Err(_) => false,
    }
}

// Asserts a bound on a side: a row, and the two numbers of a fraction.
fn bound(tableau: &mut Tableau, side: Side, numbers: &[i64]) -> bool {
    match fraction(at(numbers, 1), at(numbers, 2)) {
        Some(bound) => assert_bound(tableau, side, at(numbers, 0), bound),
        None => false,
    }
}

// Asserts a bound and lets it go, so often, and prints how many of the checks between found a point.
fn repeat(
    alloc: Global,
    out: &mut Vec<u8>,
    tableau: &mut Tableau,
    numbers: &[i64],
) -> Result<bool, AllocError> {
    match fraction(at(numbers, 2), at(numbers, 3)) {
        Some(bound) => {
            let feasible = again(tableau, at(numbers, 0), at(numbers, 1), bound);
            shown::add_count(alloc, out, feasible)?;
            Ok(true)
        }
        None => Ok(false),
    }
}

// A tableau of rows, where so many bounds and steps are allowed.
fn opened(
    alloc: Global,
    rows: &[Linear],
    trail: usize,
    pivots: u64,
) -> Result<Option<Tableau>, AllocError> {
    if pivots > 1_000_000 || !can_open(alloc, rows)? {
        return Ok(None);
    }
    Ok(Some(Tableau::open(alloc, rows, trail, pivots)?))
}

// A natural number, 0 for one below.
fn natural(number: i64) -> u64 {
    u64::try_from(number).unwrap_or(0)
}

// Does what a line asks of a tableau; whether it may be done.
fn ask(
    alloc: Global,
    tableau: &mut Tableau,
    marks: &[Mark],
    word: &str,
    numbers: &[i64],
    out: &mut Vec<u8>,
) -> Result<bool, AllocError> {
    if word == "again" {
        return repeat(alloc, out, tableau, numbers);
    }
    if word == "check" {
        return checked(alloc, out, tableau);
    }
    Ok(tell(tableau, marks, word, numbers))
}

// Checks, which may always be done.
fn checked(alloc: Global, out: &mut Vec<u8>, tableau: &mut Tableau) -> Result<bool, AllocError> {
    check(alloc, out, tableau)?;
    Ok(true)
}

// Asserts a bound, or goes back; whether it may be done.
fn tell(tableau: &mut Tableau, marks: &[Mark], word: &str, numbers: &[i64]) -> bool {
    if word == "lower" {
        return bound(tableau, Side::Lower, numbers);
    }
    if word == "upper" {
        return bound(tableau, Side::Upper, numbers);
    }
    word == "undo" && undo_to(tableau, marks, at(numbers, 0))
}

impl System {
    /// Without rows.
    pub fn new(alloc: Global) -> System {
        System {
            rows: Vec::new(alloc),
            tableau: None,
            marks: Vec::new(alloc),
        }
    }

    // Begins anew.
    fn begin(&mut self) {
        self.rows.clear();
        self.tableau = None;
    }

    // One row more, if it fits.
    fn add_row(
        &mut self,
        alloc: Global,
        terms: &mut Terms,
        numbers: &[i64],
    ) -> Result<bool, AllocError> {
        match sums::row(alloc, terms, numbers)? {
            Some(row) => {
                self.rows.push(row)?;
                Ok(true)
            }
            None => Ok(false),
        }
    }

    // Opens a tableau of the rows.
    fn open(&mut self, alloc: Global, numbers: &[i64]) -> Result<bool, AllocError> {
        self.marks.clear();
        let trail = natural(at(numbers, 0)) as usize;
        self.tableau = opened(alloc, self.rows.as_slice(), trail, natural(at(numbers, 1)))?;
        Ok(self.tableau.is_some())
    }

    // Makes a mark.
    fn mark(&mut self) -> Result<bool, AllocError> {
        match &self.tableau {
            Some(tableau) => {
                self.marks.push(tableau.mark())?;
                Ok(true)
            }
            None => Ok(false),
        }
    }

    // Asks the tableau, if it is open.
    fn ask(
        &mut self,
        alloc: Global,
        word: &str,
        numbers: &[i64],
        out: &mut Vec<u8>,
    ) -> Result<bool, AllocError> {
        match &mut self.tableau {
            Some(tableau) => ask(alloc, tableau, self.marks.as_slice(), word, numbers, out),
            None => Ok(false),
        }
    }

    /// Does what a line asks for, and prints the answer. Whether it may be done.
    pub fn run(
        &mut self,
        alloc: Global,
        terms: &mut Terms,
        word: &str,
        numbers: &[i64],
        out: &mut Vec<u8>,
    ) -> Result<bool, AllocError> {
        if word == "system" {
            self.begin();
            return Ok(true);
        }
        if word == "row" {
            return self.add_row(alloc, terms, numbers);
        }
        if word == "open" {
            return self.open(alloc, numbers);
        }
        if word == "mark" {
            return self.mark();
        }
        self.ask(alloc, word, numbers, out)
    }
}
