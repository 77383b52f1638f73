// The terms and steps of a case.

ghost use Rattle.std.specs.Prelude.{◌≡◌, ◌<◌, [], ◌∷◌, IsTrue, IsSome, IfSome, length};
ghost use Rattle.spv_logic.specs.Sorts.{result_sort, head_in_range, numeral_fits};
ghost use Rattle.spv_logic.specs.declared.types.Sort.TheVariants as sort;
ghost use Rattle.spv_term.specs.Arena.{Arena, sort_at};

use crate::play::{Step, do_steps};
use spv_logic::list::List;
use spv_logic::names::Symbol;
use spv_term::{Head, Shapes, Sort, TermFault, TermId, Terms};
use std::alloc::{AllocError, Global};

/// How many terms a case may have.
const MOST: u32 = 10_000_000;

/// What the next play is over.
#[derive(Drop)]
pub struct Case {
    terms: Terms,
    steps: Vec<Step>,
}

// The numbers of a line.
fn numbers(alloc: Global, text: &str) -> Result<Vec<u32>, AllocError> {
    let mut numbers = Vec::new(alloc);
    for word in text.split_whitespace() {
        if let Ok(number) = word.parse::<u32>() {
            numbers.push(number)?;
        }
    }
    Ok(numbers)
}

// Whether there is a term of this number, and it is a list.
fn is_list(terms: &Terms, number: u32) -> bool
    ensures within { IsTrue result → number < length terms.now.nodes }
    ensures sort { IsTrue result → sort_at terms.now (record { 0 = number }) ≡ sort.List }
{
    if number >= terms.len() {
        return false;
    }
    match terms.sort(TermId(number)) {
        Sort::List => true,
        _ => false,
    }
}

// Whether a term was made; there may be too many.
fn made(term: Result<TermId, TermFault>) -> Result<bool, AllocError> {
    match term {
        Ok(_) => Ok(true),
        Err(TermFault::Size) => Ok(false),
        Err(TermFault::Memory) => Err(AllocError),
    }
}

// The head of a word that stands for a numeral or a truth value.
fn constant(word: &str) -> Option<Head>
    ensures sort { IfSome result (λ h. (a : Arena) → IsSome (result_sort a.shapes a.decls h [])) }
    ensures types { IfSome result (λ h. (a : Arena) → IsTrue (head_in_range a.shapes h)) }
    ensures numeral { IfSome result (λ h. IsTrue (numeral_fits h)) }
{
    match word {
        "one" => Some(Head::Num(1)),
        "two" => Some(Head::Num(2)),
        "true" => Some(Head::True),
        "false" => Some(Head::False),
        _ => None,
    }
}

// The head of a word that stands for a part of a list.
fn part(word: &str) -> Option<Head>
    ensures sort { IfSome result (λ h. (a : Arena) → IsSome (result_sort a.shapes a.decls h (sort.List ∷ []))) }
    ensures types { IfSome result (λ h. (a : Arena) → IsTrue (head_in_range a.shapes h)) }
    ensures numeral { IfSome result (λ h. IsTrue (numeral_fits h)) }
{
    match word {
        "car" => Some(Head::Car),
        "cdr" => Some(Head::Cdr),
        _ => None,
    }
}

// Makes the numeral or truth value of a word; whether it is one.
fn make_constant(terms: &mut Terms, word: &str) -> Result<bool, AllocError> {
    match constant(word) {
        Some(head) => made(terms.make(head, &[])),
        None => Ok(false),
    }
}

// Makes a part of a list; whether the word is one of these.
fn make_part(terms: &mut Terms, word: &str, number: u32) -> Result<bool, AllocError> {
    if !is_list(terms, number) {
        return Ok(false);
    }
    match part(word) {
        Some(head) => made(terms.make(head, &[TermId(number)])),
        None => Ok(false),
    }
}

// Makes the pair of two lists; whether they are lists.
fn make_pair(terms: &mut Terms, first: u32, second: u32) -> Result<bool, AllocError> {
    if !is_list(terms, first) || !is_list(terms, second) {
        return Ok(false);
    }
    made(terms.make(Head::Cons, &[TermId(first), TermId(second)]))
}

// Makes a variable.
fn make_variable(terms: &mut Terms, number: u32) -> Result<bool, AllocError> {
    made(terms.make(Head::Var(Symbol(number), Sort::List, 0), &[]))
}

impl Case {
    /// A case without terms and steps.
    pub fn new(alloc: Global) -> Case {
        Case {
            terms: Terms::new(alloc, Shapes::new(alloc), List::new(alloc), MOST),
            steps: Vec::new(alloc),
        }
    }

    // One more step.
    fn add(&mut self, step: Step) -> Result<bool, AllocError> {
        self.steps.push(step)?;
        Ok(true)
    }

    // Reads a line without numbers; whether it is one.
    fn read_word(&mut self, word: &str) -> Result<bool, AllocError> {
        match word {
            "mark" => self.add(Step::Mark),
            "undo" => self.add(Step::Undo),
            "note" => self.add(Step::Note),
            "noted" => self.add(Step::Noted),
            "clash" => self.add(Step::Clash),
            _ => make_constant(&mut self.terms, word),
        }
    }

    // Reads a line with one number; whether it is one.
    fn read_one(&mut self, word: &str, number: u32) -> Result<bool, AllocError> {
        match word {
            "add" => self.add(Step::Add(TermId(number))),
            "var" => make_variable(&mut self.terms, number),
            _ => make_part(&mut self.terms, word, number),
        }
    }

    // Reads a line with two numbers; whether it is one.
    fn read_two(&mut self, word: &str, first: u32, second: u32) -> Result<bool, AllocError> {
        match word {
            "same" => self.add(Step::Same(TermId(first), TermId(second))),
            "explain" => self.add(Step::Explain(TermId(first), TermId(second))),
            "cons" => make_pair(&mut self.terms, first, second),
            _ => Ok(false),
        }
    }

    // Reads a line with three numbers; whether it is one.
    fn read_three(
        &mut self,
        word: &str,
        first: u32,
        second: u32,
        why: u32,
    ) -> Result<bool, AllocError> {
        match word {
            "join" => self.add(Step::Join(TermId(first), TermId(second), why)),
            "separate" => self.add(Step::Separate(TermId(first), TermId(second), why)),
            _ => Ok(false),
        }
    }

    /// Reads a line of the case; whether it is one.
    pub fn read(&mut self, alloc: Global, word: &str, rest: &str) -> Result<bool, AllocError> {
        let numbers = numbers(alloc, rest)?;
        match numbers.as_slice() {
            [] => self.read_word(word),
            [number] => self.read_one(word, *number),
            [first, second] => self.read_two(word, *first, *second),
            [first, second, why] => self.read_three(word, *first, *second, *why),
            _ => Ok(false),
        }
    }

    /// Does the steps and prints what they show; then nothing is left of the case.
    pub fn play(&mut self, alloc: Global, out: &mut Vec<u8>) -> Result<(), AllocError> {
        do_steps(alloc, &self.terms, self.steps.as_slice(), out)?;
        *self = Case::new(alloc);
        Ok(())
    }
}
