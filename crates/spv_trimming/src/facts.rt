// The facts that a proof derives, and which of them stand on a path.

use crate::connectives::{Connectives, Shape};
use crate::numbers::{Numbers, number_of};
use indexmap::IndexMap;
use spv_atoms::{Relation, Stated, Step};
use spv_term::{Condition, Head, TermId, Terms};
use std::alloc::{AllocError, Global};

/// A relation of two terms, which need not stand in the arena.
#[derive(Clone, Copy, PartialEq, Eq, Hash, Debug)]
pub(crate) enum Pair {
    Equation(TermId, TermId),
    /// That the first number is below the second.
    Below(TermId, TermId),
    /// That the first number is at most the second.
    AtMost(TermId, TermId),
}

// The relation that a term is.
fn pair_of(terms: &Terms, t: TermId) -> Option<Pair> {
    if t.0 >= terms.len() {
        return None;
    }
    let node = terms.node(t);
    let [left, right] = node.args.as_slice() else {
        return None;
    };
    match node.head {
        Head::Eq => Some(Pair::Equation(*left, *right)),
        Head::Lt => Some(Pair::Below(*left, *right)),
        Head::Le => Some(Pair::AtMost(*left, *right)),
        _ => None,
    }
}

/// A formula.
#[derive(Clone, Copy, Debug)]
pub(crate) enum Formula {
    Term(TermId),
    Negation(TermId),
    Pair(Pair),
}

/// That a formula, which has a number, is true or is false. Each formula has one such form: a negation says that what it negates is false.
#[derive(Clone, Copy, Debug)]
pub(crate) struct Literal {
    pub(crate) formula: u32,
    pub(crate) value: bool,
}

/// What a fact says: a literal; where it is an equation, its sides; where it puts one number below another, the equations of the two, which are
/// false then.
#[derive(Clone, Copy, Debug)]
pub(crate) struct Said {
    literal: Literal,
    sides: Option<(TermId, TermId)>,
    unequal: Unequal,
}

// The equations of two numbers, one of which is below the other, by their numbers.
#[derive(Clone, Copy, Debug)]
struct Unequal {
    first: Option<u32>,
    second: Option<u32>,
}

/// Where a fact comes from: its step, which cites facts by their numbers in the list of all, or none for a case; these numbers; and the node of
/// the deepest case from which it follows, or the root.
#[derive(Drop)]
pub(crate) struct Source {
    pub(crate) step: Option<Step>,
    pub(crate) cited: Vec<u32>,
    pub(crate) scope: u32,
}

/// The numbers of formulas: a term has that of its id, and relations that are no terms come behind.
#[derive(Drop)]
pub(crate) struct Formulas {
    pairs: IndexMap<Pair, u32>,
    next: usize,
}

impl Formulas {
    /// The numbers of the terms of an arena.
    pub(crate) fn of(alloc: Global, terms: &Terms) -> Result<Formulas, AllocError> {
        let mut pairs = IndexMap::new(alloc);
        for k in 0..terms.len() {
            if let Some(pair) = pair_of(terms, TermId(k)) {
                pairs.insert(pair, k)?;
            }
        }
        Ok(Formulas {
            pairs,
            next: terms.len() as usize,
        })
    }

    // The number of a relation, if it has one.
    fn find(&self, pair: Pair) -> Option<u32> {
        self.pairs.get(&pair).copied()
    }

    // The number of a relation.
    fn number(&mut self, pair: Pair) -> Result<u32, AllocError> {
        if let Some(number) = self.find(pair) {
            return Ok(number);
        }
        let number = number_of(self.next)?;
        self.pairs.insert(pair, number)?;
        self.next = self.next.saturating_add(1);
        Ok(number)
    }

    /// The literal of a formula.
    pub(crate) fn literal(
        &mut self,
        connectives: &Connectives,
        formula: Formula,
    ) -> Result<Literal, AllocError> {
        match formula {
            Formula::Term(t) => Ok(term_literal(connectives, t)),
            Formula::Negation(t) => Ok(Literal {
                formula: t.0,
                value: false,
            }),
            Formula::Pair(pair) => Ok(Literal {
                formula: self.number(pair)?,
                value: true,
            }),
        }
    }

    // The equations that are false where a relation holds.
    fn unequal(&self, pair: Option<Pair>) -> Unequal {
        match pair {
            Some(Pair::Below(s, t)) => Unequal {
                first: self.find(Pair::Equation(s, t)),
                second: self.find(Pair::Equation(t, s)),
            },
            _ => Unequal {
                first: None,
                second: None,
            },
        }
    }

    /// What a fact says that is this formula, with this literal.
    pub(crate) fn said(&self, terms: &Terms, formula: Formula, literal: Literal) -> Said {
        let pair = stated_pair(terms, formula);
        Said {
            literal,
            sides: sides_of(pair),
            unequal: self.unequal(pair),
        }
    }
}

// The literal of a term.
fn term_literal(connectives: &Connectives, t: TermId) -> Literal {
    match connectives.shape(t) {
        Shape::Not(u) => Literal {
            formula: u.0,
            value: false,
        },
        _ => Literal {
            formula: t.0,
            value: true,
        },
    }
}

// A fact that a proof derives: where it comes from, and its sides, where it is an equation.
#[derive(Drop)]
struct Fact {
    source: Source,
    sides: Option<(TermId, TermId)>,
}

/// A value that is given to a term, and the number of the fact that gives it; 0 for no fact.
#[derive(Clone, Copy, Debug)]
pub(crate) struct Given {
    pub(crate) value: bool,
    pub(crate) fact: u32,
}

/// The facts that a proof derives, by their numbers from 1, each behind those that it follows from, and where a walk over the proof is. A fact
/// stands on the path there if the case on which it depends does, wherever it was derived. Beside each formula stands the last fact that says that
/// it is true, that it is false, and that one of its sides is below the other.
#[derive(Drop)]
pub(crate) struct Facts {
    all: Vec<Fact>,
    open: Numbers,
    holding: Numbers,
    failing: Numbers,
    apart: Numbers,
}

impl Facts {
    /// No facts, on no path.
    pub(crate) fn new(alloc: Global) -> Facts {
        Facts {
            all: Vec::new(alloc),
            open: Numbers::new(alloc),
            holding: Numbers::new(alloc),
            failing: Numbers::new(alloc),
            apart: Numbers::new(alloc),
        }
    }

    /// How many facts there are.
    pub(crate) fn len(&self) -> usize {
        self.all.len()
    }

    // The fact of a number.
    fn get(&self, number: u32) -> Option<&Fact> {
        if number == 0 {
            return None;
        }
        self.all.get(number as usize - 1)
    }

    /// The step that adds the fact of a number; none for a case.
    pub(crate) fn step(&self, number: u32) -> Option<&Step> {
        match self.get(number) {
            Some(fact) => fact.source.step.as_ref(),
            None => None,
        }
    }

    /// The facts that are cited for the fact of a number, by their numbers.
    pub(crate) fn cited(&self, number: u32) -> &[u32] {
        match self.get(number) {
            Some(fact) => fact.source.cited.as_slice(),
            None => &[],
        }
    }

    /// The node whose case a fact is.
    pub(crate) fn case(&self, number: u32) -> Option<u32> {
        match self.get(number) {
            Some(fact) if fact.source.step.is_none() => Some(fact.source.scope),
            _ => None,
        }
    }

    /// The node on whose case a fact depends.
    pub(crate) fn scope(&self, number: u32) -> u32 {
        match self.get(number) {
            Some(fact) => fact.source.scope,
            None => 0,
        }
    }

    /// The path goes on to a node.
    pub(crate) fn enter(&mut self, node: u32) -> Result<(), AllocError> {
        self.open.set(node, 1)
    }

    /// The path goes back from a node.
    pub(crate) fn leave(&mut self, node: u32) -> Result<(), AllocError> {
        self.open.set(node, 0)
    }

    // A fact, if it stands on the path; else 0.
    fn if_open(&self, number: u32) -> u32 {
        if number != 0 && self.open.at(self.scope(number)) == 1 {
            number
        } else {
            0
        }
    }

    /// The number of the fact on the path that says this; 0 where none does.
    pub(crate) fn number(&self, literal: Literal) -> u32 {
        let number = if literal.value {
            self.holding.at(literal.formula)
        } else {
            self.failing.at(literal.formula)
        };
        self.if_open(number)
    }

    // A fact says this.
    fn note(&mut self, literal: Literal, number: u32) -> Result<(), AllocError> {
        if literal.value {
            self.holding.set(literal.formula, number)
        } else {
            self.failing.set(literal.formula, number)
        }
    }

    // An equation, if it has a number, is false, as a fact says.
    fn note_unequal(&mut self, equation: Option<u32>, number: u32) -> Result<(), AllocError> {
        match equation {
            Some(equation) => self.apart.set(equation, number),
            None => Ok(()),
        }
    }

    /// Puts a fact behind the others. It is the one that says this from here on.
    pub(crate) fn add(&mut self, said: Said, source: Source) -> Result<u32, AllocError> {
        self.all.push(Fact {
            source,
            sides: said.sides,
        })?;
        let number = number_of(self.all.len())?;
        self.note(said.literal, number)?;
        self.note_unequal(said.unequal.first, number)?;
        self.note_unequal(said.unequal.second, number)?;
        Ok(number)
    }

    /// The value that the facts of the path give to a term.
    pub(crate) fn given(&self, connectives: &Connectives, t: TermId) -> Option<Given> {
        let fact = self.number(term_literal(connectives, t));
        if fact != 0 {
            return Some(Given { value: true, fact });
        }
        let fact = self.number(Literal {
            formula: t.0,
            value: false,
        });
        if fact != 0 {
            return Some(Given { value: false, fact });
        }
        let fact = self.if_open(self.apart.at(t.0));
        if fact != 0 {
            return Some(Given { value: false, fact });
        }
        None
    }

    // The sides of a fact that is an equation.
    fn sides(&self, number: u32) -> Option<(TermId, TermId)> {
        match self.get(number) {
            Some(fact) => fact.sides,
            None => None,
        }
    }

    /// The formula that a step adds on a path. None where it adds none, or one that is not seen from here.
    pub(crate) fn formula(
        &self,
        condition: &Condition,
        path: &Numbers,
        step: &Step,
    ) -> Option<Formula> {
        match step {
            Step::Given(k) => hypothesis(condition, *k),
            Step::Refl(t) => Some(equation(*t, *t)),
            Step::Symm(i) => {
                let (s, t) = self.sides(path.at(*i))?;
                Some(equation(t, s))
            }
            Step::Trans(i, j) => {
                let (s, _) = self.sides(path.at(*i))?;
                let (_, u) = self.sides(path.at(*j))?;
                Some(equation(s, u))
            }
            Step::Cong(t, u, _) => Some(equation(*t, *u)),
            Step::Linear(relation, _, _) => Some(related(*relation)),
            Step::Eval(claim, _) => Some(stated(*claim)),
            _ => None,
        }
    }
}

fn equation(s: TermId, t: TermId) -> Formula {
    Formula::Pair(Pair::Equation(s, t))
}

/// The formula that an evaluation states.
pub(crate) fn stated(claim: Stated) -> Formula {
    match claim {
        Stated::Is(t, true) => Formula::Term(t),
        Stated::Is(t, false) => Formula::Negation(t),
        Stated::Same(s, t) => equation(s, t),
    }
}

// The formula of a hypothesis, or for 0 that the goal is false.
fn hypothesis(condition: &Condition, number: u32) -> Option<Formula> {
    if number == 0 {
        return Some(Formula::Negation(condition.goal));
    }
    match condition.given.as_slice().get(number as usize - 1) {
        Some(t) => Some(Formula::Term(*t)),
        None => None,
    }
}

fn related(relation: Relation) -> Formula {
    match relation {
        Relation::AtMost(s, t) => Formula::Pair(Pair::AtMost(s, t)),
        Relation::Equal(s, t) => equation(s, t),
    }
}

/// The relation that a formula is.
pub(crate) fn stated_pair(terms: &Terms, formula: Formula) -> Option<Pair> {
    match formula {
        Formula::Term(t) => pair_of(terms, t),
        Formula::Negation(_) => None,
        Formula::Pair(pair) => Some(pair),
    }
}

fn sides_of(pair: Option<Pair>) -> Option<(TermId, TermId)> {
    match pair {
        Some(Pair::Equation(s, t)) => Some((s, t)),
        _ => None,
    }
}
