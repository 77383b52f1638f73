// The terms, the atoms and the steps of a case.

ghost use Rattle.std.specs.Prelude.{◌≡◌, ◌<◌, [], ◌∷◌, IfOk, IsTrue, IsSome, IfSome, length};
ghost use Rattle.spv_logic.specs.Sorts.{result_sort, head_in_range, numeral_fits};
ghost use Rattle.spv_logic.specs.declared.operators.Head.TheVariants as head;
ghost use Rattle.spv_logic.specs.declared.types.Sort.TheVariants as sort;
ghost use Rattle.spv_term.specs.Arena.{Arena, sort_at};

use crate::play::{Step, do_steps};
use spv_derivations::derivation::Part;
use spv_logic::list::List;
use spv_logic::names::Symbol;
use spv_term::{Decl, Head, Shapes, Sort, TermFault, TermId, Terms};
use std::alloc::{AllocError, Global};

// How many terms a case may have.
const MOST: u32 = 10_000_000;

// The symbol that is declared in each case.
const F: Symbol = Symbol(0);

/// What the next play is over.
#[derive(Drop)]
pub struct Case {
    terms: Terms,
    atoms: Vec<TermId>,
    steps: Vec<Step>,
}

// The numbers of a line.
fn numbers(alloc: Global, text: &str) -> Result<Vec<i64>, AllocError> {
    let mut numbers = Vec::new(alloc);
    for word in text.split_whitespace() {
        if let Ok(number) = word.parse::<i64>() {
            numbers.push(number)?;
        }
    }
    Ok(numbers)
}

// The term of a number; one that is not there where it is none.
fn term(number: i64) -> TermId {
    TermId(u32::try_from(number).unwrap_or(u32::MAX))
}

// Whether there is such a term, and it is a whole number.
fn is_number(terms: &Terms, t: TermId) -> bool
    ensures within { IsTrue result → t.0 < length terms.now.nodes }
    ensures sort { IsTrue result → sort_at terms.now t ≡ sort.Int }
{
    if t.0 >= terms.len() {
        return false;
    }
    match terms.sort(t) {
        Sort::Int => true,
        _ => false,
    }
}

// The declaration of F, over a whole number and giving one.
fn declared(alloc: Global) -> Result<List<Decl>, AllocError>
    ensures { IfOk result (λ decls. decls ≡ record { name = record { 0 = 0 }; args = sort.Int ∷ []; result = sort.Int } ∷ []) }
{
    let args = List::from_vec(Vec::from_slice(alloc, &[Sort::Int])?);
    let mut list = Vec::new(alloc);
    list.push(Decl {
        name: F,
        args,
        result: Sort::Int,
    })?;
    Ok(List::from_vec(list))
}

// Whether a term was made; there may be too many.
fn made(term: Result<TermId, TermFault>) -> Result<bool, AllocError> {
    match term {
        Ok(_) => Ok(true),
        Err(TermFault::Size) => Ok(false),
        Err(TermFault::Memory) => Err(AllocError),
    }
}

// The head of a word that stands for an operation or a relation of whole numbers.
fn head(word: &str) -> Option<Head>
    ensures sort { IfSome result (λ h. (a : Arena) → IsSome (result_sort a.shapes a.decls h (sort.Int ∷ sort.Int ∷ []))) }
    ensures types { IfSome result (λ h. (a : Arena) → IsTrue (head_in_range a.shapes h)) }
    ensures numeral { IfSome result (λ h. IsTrue (numeral_fits h)) }
{
    match word {
        "plus" => Some(Head::Add),
        "minus" => Some(Head::Sub),
        "times" => Some(Head::Mul),
        "equal" => Some(Head::Eq),
        "less" => Some(Head::Lt),
        "at-most" => Some(Head::Le),
        _ => None,
    }
}

// Makes a term of two whole numbers; whether the word stands for one.
fn make_pair(terms: &mut Terms, word: &str, s: TermId, t: TermId) -> Result<bool, AllocError> {
    if !is_number(terms, s) || !is_number(terms, t) {
        return Ok(false);
    }
    match head(word) {
        Some(head) => made(terms.make(head, &[s, t])),
        None => Ok(false),
    }
}

// Whether this declares F, over a whole number.
fn declares(decl: &Decl) -> bool
    ensures name { IsTrue result → decl.now.name.0 ≡ 0 }
    ensures args { IsTrue result → decl.now.args ≡ sort.Int ∷ [] }
{
    match decl.args.as_slice() {
        [Sort::Int] => decl.name.0 == 0,
        _ => false,
    }
}

// Whether F is declared, over a whole number.
fn is_declared(terms: &Terms) -> bool
    ensures { IsTrue result → IsSome (result_sort terms.now.shapes terms.now.decls (head.App (record { 0 = 0 })) (sort.Int ∷ [])) }
{
    match terms.decls() {
        [decl] => declares(decl),
        _ => false,
    }
}

// Makes F of a whole number, where this is one.
fn make_application(terms: &mut Terms, t: TermId) -> Result<bool, AllocError> {
    if !is_number(terms, t) || !is_declared(terms) {
        return Ok(false);
    }
    made(terms.make(Head::App(F), &[t]))
}

// Makes a variable.
fn make_variable(terms: &mut Terms, number: i64) -> Result<bool, AllocError> {
    let number = u32::try_from(number).unwrap_or(0);
    made(terms.make(Head::Var(Symbol(number), Sort::Int, 0), &[]))
}

// Makes a numeral.
fn make_numeral(terms: &mut Terms, number: i64) -> Result<bool, AllocError> {
    made(terms.make(Head::Num(i128::from(number)), &[]))
}

impl Case {
    /// A case without terms, atoms and steps.
    pub fn new(alloc: Global) -> Result<Case, AllocError> {
        let decls = declared(alloc)?;
        Ok(Case {
            terms: Terms::new(alloc, Shapes::new(alloc), decls, MOST),
            atoms: Vec::new(alloc),
            steps: Vec::new(alloc),
        })
    }

    // One more step.
    fn add(&mut self, step: Step) -> Result<bool, AllocError> {
        self.steps.push(step)?;
        Ok(true)
    }

    // One more atom.
    fn add_atom(&mut self, number: i64) -> Result<bool, AllocError> {
        self.atoms.push(term(number))?;
        Ok(true)
    }

    // Does the steps and prints what they show; then nothing is left of the case.
    fn play(&mut self, alloc: Global, pivots: i64, out: &mut Vec<u8>) -> Result<bool, AllocError> {
        let pivots = u64::try_from(pivots).unwrap_or(0);
        let done = do_steps(
            alloc,
            &mut self.terms,
            self.atoms.as_slice(),
            self.steps.as_slice(),
            pivots,
            out,
        )?;
        *self = Case::new(alloc)?;
        Ok(done)
    }

    // Reads a line without numbers; whether it is one.
    fn read_word(&mut self, word: &str) -> Result<bool, AllocError> {
        match word {
            "mark" => self.add(Step::Mark),
            "undo" => self.add(Step::Undo),
            "state" => self.add(Step::State),
            _ => Ok(false),
        }
    }

    // Reads a line with one number; whether it is one.
    fn read_one(
        &mut self,
        alloc: Global,
        word: &str,
        number: i64,
        out: &mut Vec<u8>,
    ) -> Result<bool, AllocError> {
        match word {
            "variable" => make_variable(&mut self.terms, number),
            "number" => make_numeral(&mut self.terms, number),
            "apply" => make_application(&mut self.terms, term(number)),
            "atom" => self.add_atom(number),
            "true" => self.add(Step::Tell(number, Part::True)),
            "false" => self.add(Step::Tell(number, Part::False)),
            "below" => self.add(Step::Tell(number, Part::Below)),
            "above" => self.add(Step::Tell(number, Part::Above)),
            "play" => self.play(alloc, number, out),
            _ => Ok(false),
        }
    }

    /// Reads a line of the case; whether it is one.
    pub fn read(
        &mut self,
        alloc: Global,
        word: &str,
        rest: &str,
        out: &mut Vec<u8>,
    ) -> Result<bool, AllocError> {
        let numbers = numbers(alloc, rest)?;
        match numbers.as_slice() {
            [] => self.read_word(word),
            [number] => self.read_one(alloc, word, *number, out),
            [first, second] => make_pair(&mut self.terms, word, term(*first), term(*second)),
            _ => Ok(false),
        }
    }
}
